//! The parts of a source.
use i7_lexer::PackedToken;

/// What a part of a source is read as.
#[derive(Clone, Copy, PartialEq, Eq)]
pub enum PartKind {
    /// The source's first sentence, if it is a text alone or a text by somebody.
    Title,
    /// A paragraph of one line that begins with `Volume`, `Book`, `Part`, `Chapter` or `Section`.
    Heading,
    Sentence,
}

/// A part of a source: one or more tokens.
#[derive(Clone, Copy)]
pub struct Part<'a> {
    pub kind: PartKind,
    pub tokens: &'a [PackedToken],
}
