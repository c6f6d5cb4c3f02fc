//! Tokens of the lines of a grammar.

/// A token of a line, as `put`, a slot, `on` and a slot are those of `put X on Y`.
#[derive(Clone, Copy)]
pub enum Token<'a> {
    /// A word, whatever the case of its letters.
    Word(&'a [u8]),
    /// A slot for a thing that the player sees.
    Something,
    /// A slot for a direction.
    Direction,
}
