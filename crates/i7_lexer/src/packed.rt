//! Tokens as they are kept: 16 bytes each, in which up to seven bytes of a word or a text lie.
ghost use Rattle.std.specs.Prelude.{◌≡◌, IfOk, MatchOption};
ghost use Rattle.i7_lexer.specs.declared.token.Token.{Token};
ghost use Rattle.i7_lexer.specs.Packing.{far, kind_with};
ghost use Rattle.i7_lexer.specs.declared.token.TokenKind.TheVariants.{Mark};

use crate::short_bytes::{MOST, ShortBytes};
use crate::span::Span;
use crate::{Start, TokenKind};
use std::alloc::{AllocError, Global};
use std::marker::Model;

/// Which tokens have bytes of their own.
#[derive(Clone, Copy, PartialEq, Eq)]
pub(crate) enum Sort {
    Text,
    Word,
}

/// A start with an indent of one byte.
#[derive(Clone, Copy)]
pub(crate) enum NearStart {
    Paragraph,
    Line { indent: u8 },
    Within,
    Across,
}

/// What doesn't lie in the token.
#[derive(Drop)]
struct Distant {
    start: Start,
    bytes: Vec<u8>,
}

/// How a token is kept.
#[derive(Drop)]
enum Shape {
    Mark {
        byte: u8,
        line: u32,
        start: Start,
    },
    Short {
        sort: Sort,
        start: NearStart,
        line: u32,
        bytes: ShortBytes,
    },
    Long {
        sort: Sort,
        line: u32,
        distant: Box<Distant>,
    },
}

/// A token as it is kept, seen by contracts as the token.
#[derive(Drop)]
pub struct PackedToken {
    shape: Shape,
}

impl Model for PackedToken {
    ghost use Rattle.i7_lexer.specs.declared.token.Token.{Token};

    ghost Value = { Token };

    ghost use Rattle.i7_lexer.specs.Packing.{seen};

    ghost view = { λ t. seen t.shape };
}

impl PackedToken {
    /// A mark.
    pub(crate) fn mark(byte: u8, line: u32, start: Start) -> PackedToken
        ensures { result ≡ record { kind = Mark byte; line = line; start = start } }
    {
        PackedToken {
            shape: Shape::Mark { byte, line, start },
        }
    }

    /// A text or a word with a copy of these bytes.
    #[inline(always)]
    pub(crate) fn copied(
        alloc: Global,
        sort: Sort,
        bytes: &[u8],
        line: u32,
        start: Start,
    ) -> Result<PackedToken, AllocError>
        ensures { IfOk result (λ token. token ≡ record { kind = kind_with sort bytes.now; line = line; start = start }) }
    {
        if let Some(start) = near(start) {
            if bytes.len() <= MOST {
                return Ok(PackedToken {
                    shape: Shape::Short {
                        sort,
                        start,
                        line,
                        bytes: ShortBytes::copied(bytes),
                    },
                });
            }
        }
        let distant = Box::new(
            alloc,
            Distant {
                start,
                bytes: Vec::from_slice(alloc, bytes)?,
            },
        )?;
        Ok(PackedToken {
            shape: Shape::Long {
                sort,
                line,
                distant,
            },
        })
    }

    /// What the token is.
    pub fn kind(&self) -> TokenKind<'_>
        ensures { result ≡ self.now.kind }
    {
        match &self.shape {
            Shape::Mark { byte, .. } => TokenKind::Mark(*byte),
            Shape::Short { sort, bytes, .. } => kind_with(*sort, bytes.as_slice()),
            Shape::Long { sort, distant, .. } => kind_with(*sort, distant.bytes.as_slice()),
        }
    }

    /// The line of the token's first byte, counted from 1.
    pub fn line(&self) -> u32
        ensures { result ≡ self.now.line }
    {
        match &self.shape {
            Shape::Mark { line, .. } => *line,
            Shape::Short { line, .. } => *line,
            Shape::Long { line, .. } => *line,
        }
    }

    /// How the token stands on its line.
    pub fn start(&self) -> Start
        ensures { result ≡ self.now.start }
    {
        match &self.shape {
            Shape::Mark { start, .. } => *start,
            Shape::Short { start, .. } => far(*start),
            Shape::Long { distant, .. } => distant.start,
        }
    }
}

/// The text or the word of these bytes.
fn kind_with(sort: Sort, bytes: &[u8]) -> TokenKind<'_>
    ensures { result ≡ kind_with sort bytes.now }
{
    match sort {
        Sort::Text => TokenKind::Text(Span::new(bytes)),
        Sort::Word => TokenKind::Word(Span::new(bytes)),
    }
}

/// The start, if its indent is of one byte.
fn near(start: Start) -> Option<NearStart>
    ensures { MatchOption result (Unit {0}) (λ near. far near ≡ start) }
{
    match start {
        Start::Paragraph => Some(NearStart::Paragraph),
        Start::Within => Some(NearStart::Within),
        Start::Across => Some(NearStart::Across),
        Start::Line { indent } => match u8::try_from(indent) {
            Ok(indent) => Some(NearStart::Line { indent }),
            Err(_) => None,
        },
    }
}

/// The start that is kept so.
fn far(near: NearStart) -> Start
    ensures { result ≡ far near }
{
    match near {
        NearStart::Paragraph => Start::Paragraph,
        NearStart::Line { indent } => Start::Line {
            indent: u32::from(indent),
        },
        NearStart::Within => Start::Within,
        NearStart::Across => Start::Across,
    }
}
