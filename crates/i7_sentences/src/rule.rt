//! Rules as their sentences say them, the words in them not yet resolved.
ghost use Rattle.std.specs.Prelude.{◌≡◌};

use crate::{Spoken, WordList};
use std::marker::Model;

/// The book that a rule's head names.
#[derive(Drop)]
pub enum RuleBook {
    /// `before`
    Before,
    /// `instead of`
    Instead,
    /// `check`
    Check,
    /// `carry out`
    CarryOut,
    /// `after`
    After,
    /// `report`
    Report,
    /// `every turn`
    EveryTurn,
    /// `when play begins`
    PlayBegins,
    /// `when the storm begins`: the scene's words, a free article among them
    SceneBegins(WordList),
    /// `when the storm ends`: the same
    SceneEnds(WordList),
    /// `a cleanup rule`: the words between the free article and `rule`
    Own(WordList),
}

/// What a rule's head says of the action and of the place.
#[derive(Drop)]
pub enum RuleSubject {
    /// Nothing.
    Anything,
    /// A pattern, behind a book of actions: `taking the box in the Hall`.
    Pattern(WordList),
    /// The words behind `in`, in a head of another book.
    Place(WordList),
}

/// A phrase of a rule's body.
#[derive(Drop)]
pub struct RulePhrase {
    /// The line of its first token, counted from 1.
    pub line: u32,
    /// How many blocks stand around it. What belongs to an `if`, an `otherwise` or a `repeat` stands right
    /// behind it and is deeper; an `otherwise` stands as deep as its `if`.
    pub depth: usize,
    pub said: Spoken,
    /// Whether an `instead` closes it.
    pub is_instead: bool,
}

/// The phrases of a rule's body, in order.
#[derive(Drop)]
pub struct RuleBody {
    all: Vec<RulePhrase>,
}

impl Model for RuleBody {
    ghost use Rattle.std.specs.Prelude.{List};
    ghost use Rattle.i7_sentences.specs.declared.rule.RulePhrase.{RulePhrase};

    ghost Value = { List RulePhrase };

    ghost view = { λ body. body.all.items };
}

impl RuleBody {
    /// These phrases.
    pub(crate) fn new(all: Vec<RulePhrase>) -> RuleBody
        ensures { result ≡ all.items }
    {
        RuleBody { all }
    }

    /// The phrases, in order.
    pub fn as_slice(&self) -> &[RulePhrase]
        ensures { result.now ≡ self.now }
    {
        self.all.as_slice()
    }
}

/// A rule that a sentence says.
#[derive(Drop)]
pub struct Rule {
    pub book: RuleBook,
    pub subject: RuleSubject,
    /// The words behind `during`: a scene.
    pub scene: Option<WordList>,
    /// The words behind `when`, which have the shape of a condition.
    pub condition: Option<WordList>,
    /// The words of `(this is the tidy rule)` between `the` and `rule`.
    pub name: Option<WordList>,
    pub body: RuleBody,
}
