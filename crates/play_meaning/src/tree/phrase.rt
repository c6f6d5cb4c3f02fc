//! Phrases (*Writing with Inform*, chapters 8, 11, 12 and 19).
use crate::action::ActNo;
use crate::outcome::Flow;
use crate::tree::condition::Condition;
use crate::tree::number::Number;
use crate::tree::object::{Description, Referent};
use crate::tree::said::Text;
use world_meaning::{Rel, TextBytes};

/// A phrase without phrases of its own. Properties, variables, rulebooks and kinds of value go by their numbers.
#[derive(Debug, Drop)]
pub enum Simple {
    Say(Text),
    /// `now OBJECT is PROPERTY`, or is not.
    NowIs(Referent, u8, bool),
    NowHeld(Referent, Rel, Referent),
    NowNowhere(Referent),
    /// In, on or carried, by the holder's kind.
    Move(Referent, Referent),
    NowNumber(u8, Referent, Number),
    NowVariable(u8, Number),
    /// The object gets a value of a kind of value: `now the KIND OF VALUE of OBJECT is VALUE`, `now OBJECT is VALUE`.
    NowValued(Referent, u8, u8),
    /// Silently or not, with the noun and the second noun.
    Try(bool, ActNo, Referent, Referent),
    Follow(u16),
    /// `rule succeeds`, `rule fails`, `stop the action`, `make no decision`, `continue the action`.
    Leave(Flow),
    EndStory(TextBytes),
}

/// A phrase of a rule's body.
#[derive(Debug, Drop)]
#[cycle(phrases)]
pub enum Phrase {
    Plain(Simple),
    /// It is done, and then the rule fails.
    Instead(Simple),
    /// `if`, then each `otherwise if`, and what is done `otherwise`: the first branch whose condition holds is done.
    If(Branch, Vec<Branch>, Vec<Phrase>),
    /// What is done for each object that the description means.
    Repeat(Description, Vec<Phrase>),
}

/// A condition, and what is done where it holds.
#[derive(Debug, Drop)]
#[cycle(phrases)]
pub struct Branch {
    pub condition: Condition,
    pub phrases: Vec<Phrase>,
}
