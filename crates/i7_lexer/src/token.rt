//! Tokens: what the lexer gives.
use crate::span::Span;

/// What a token is.
#[derive(Drop)]
pub enum TokenKind<'a> {
    /// A text, without its quotes. A line break in it stands as one space, a paragraph break as two
    /// line feeds.
    Text(Span<'a>),
    /// A word as it is written; the words of `fixed in place`, `switched on` and `switched off`
    /// are one word, parted by one space each.
    Word(Span<'a>),
    /// Any other character.
    Mark(u8),
}

/// How a token stands on its line.
#[derive(Clone, Copy)]
pub enum Start {
    /// It is the first of its paragraph.
    Paragraph,
    /// It is the first of a line that isn't its paragraph's first, behind so many tabs.
    Line { indent: u32 },
    /// A token stands before it on its line.
    Within,
    /// A token stands before it on its line, and it goes over a line break: a word of `switched on`,
    /// `switched off` or `fixed in place` begins a later line.
    Across,
}

/// A token, and where it stands.
#[derive(Drop)]
pub struct Token<'a> {
    pub kind: TokenKind<'a>,
    /// The line of the token's first byte, counted from 1.
    pub line: u32,
    pub start: Start,
}
