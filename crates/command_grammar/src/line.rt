//! Lines of the grammar, with tokens of their own.
use play_meaning::ActNo;
use world_meaning::{Listed, TextBytes};

/// The most tokens of a line.
pub const MOST_TOKENS: usize = 32;

/// A token of a line that keeps its word.
#[derive(Drop)]
pub enum KeptToken {
    /// A word, as it was written; whatever the case of its letters, it is typed alike.
    Word(TextBytes),
    /// A slot for a thing that the player sees.
    Something,
    /// A slot for a direction.
    Direction,
}

/// A line: `weigh`, a slot, `with` and a slot, for the action of weighing one thing with another.
#[derive(Drop)]
pub struct GrammarLine {
    /// The action that the line asks for.
    pub action: ActNo,
    /// Its tokens, in order.
    pub tokens: Listed<KeptToken>,
}
