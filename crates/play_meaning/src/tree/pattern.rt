//! What rules are about, and where sentences list them (*Writing with Inform*, chapters 7 and 19).
ghost use Rattle.std.specs.Prelude.{◌≡◌};
ghost use Rattle.play_meaning.specs.Patterns.{anything, pattern_meant};

use crate::action::ActNo;
use crate::tree::object::Adjective;
use world_meaning::{KindNo, Listed, ObjNo};

/// What a rule asks of a noun, or of the place.
#[derive(Drop)]
pub enum Aspect {
    Anything,
    /// This object.
    Exactly(ObjNo),
    /// An object of this kind, or of one below it, of which these adjectives are true.
    OfKind(KindNo, Listed<Adjective>),
}

/// What a rule is about, its condition aside: nothing that isn't asked for matters.
#[derive(Drop)]
pub struct Pattern {
    pub action: Option<ActNo>,
    pub noun: Aspect,
    pub second: Aspect,
    pub place: Aspect,
    /// The number of a scene that happens.
    pub scene: Option<u8>,
}

impl Pattern {
    /// Of a rule that is about nothing but its condition.
    pub const fn anything() -> Pattern
        ensures { pattern_meant result ≡ anything }
    {
        Pattern {
            action: None,
            noun: Aspect::Anything,
            second: Aspect::Anything,
            place: Aspect::Anything,
            scene: None,
        }
    }
}

/// Where sentences list a rule, by the latest of them.
#[derive(Clone, Copy)]
pub enum Listing {
    /// No sentence lists it: it stands where its pattern puts it.
    InOrder,
    /// `is listed first in`, by the number of the sentence: the latest goes first.
    First(u32),
    /// `is listed last in`, by the number of the sentence: the latest goes last.
    Last(u32),
    /// `is not listed in any rulebook`
    Unlisted,
}
