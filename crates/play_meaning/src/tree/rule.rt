//! Rules of the author's (*Writing with Inform*, chapters 7 and 19).
use crate::tree::condition::Condition;
use crate::tree::pattern::{Listing, Pattern};
use crate::tree::phrase::Phrase;

/// What the head of a rule says, and where sentences list it.
#[derive(Drop)]
pub struct RuleHead {
    /// The rulebook, by its number.
    pub book: u16,
    pub pattern: Pattern,
    pub condition: Option<Condition>,
    pub listing: Listing,
}

/// A rule whose words are resolved.
#[derive(Drop)]
pub struct MeantRule {
    pub head: RuleHead,
    pub body: Vec<Phrase>,
}
