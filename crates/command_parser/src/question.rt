//! What is asked where a phrase of a command may mean several things.
ghost use Rattle.std.specs.Prelude.{◌≡◌};

use play_meaning::ActNo;
use std::marker::Model;
use world_meaning::ObjNo;

/// Objects in order.
#[derive(Drop)]
pub struct Objects {
    all: Vec<ObjNo>,
}

impl Model for Objects {
    ghost use Rattle.std.specs.Prelude.{ℕ, List};

    ghost Value = { List ℕ };

    ghost view = { λ objects. objects.all.items };
}

impl Objects {
    /// These objects.
    pub fn new(all: Vec<ObjNo>) -> Objects
        ensures { result ≡ all.items }
    {
        Objects { all }
    }

    /// The objects, in order.
    pub fn as_slice(&self) -> &[ObjNo]
        ensures { result.now ≡ self.now }
    {
        self.all.as_slice()
    }
}

/// A question that is open: the action that is asked for, the nouns that are chosen, the objects of which one is meant, and
/// of each slot behind that the objects that it may mean.
#[derive(Drop)]
pub struct Question {
    action: ActNo,
    chosen: Objects,
    candidates: Objects,
    others: Vec<Objects>,
}

impl Model for Question {
    ghost use Rattle.play_meaning.specs.Games.{Question as Asked};

    ghost Value = { Asked };

    ghost view = { λ q. record { action = q.action; chosen = q.chosen; candidates = q.candidates; others = q.others.items } };
}

impl Question {
    /// The question of an action with its chosen nouns, of these candidates, and those of the slots behind it.
    pub fn new(
        action: ActNo,
        chosen: Objects,
        candidates: Objects,
        others: Vec<Objects>,
    ) -> Question
        ensures { result ≡ record { action = action; chosen = chosen; candidates = candidates; others = others.items } }
    {
        Question {
            action,
            chosen,
            candidates,
            others,
        }
    }

    /// The action that is asked for.
    pub fn action(&self) -> ActNo
        ensures { result ≡ self.now.action }
    {
        self.action
    }

    /// The nouns that are chosen.
    pub fn chosen(&self) -> &[ObjNo]
        ensures { result.now ≡ self.now.chosen }
    {
        self.chosen.as_slice()
    }

    /// The objects of which one is meant: which it is, is asked.
    pub fn candidates(&self) -> &[ObjNo]
        ensures { result.now ≡ self.now.candidates }
    {
        self.candidates.as_slice()
    }

    /// The objects that each slot behind may mean.
    pub fn others(&self) -> &[Objects]
        ensures { result.now ≡ self.now.others }
    {
        self.others.as_slice()
    }
}
