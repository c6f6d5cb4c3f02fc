//! How deep a line may be: as deep as the line before, and one tab deeper behind a colon.
ghost use Rattle.std.specs.Prelude.{◌≡◌, false, None};
ghost use Rattle.i7_lexer.specs.Indents.{deep_with, forbids, indent_with, is_colon, line_with};

use crate::Start;
use crate::lexeme::Piece;
use crate::placed::Placed;

/// The line before, as far as it says how deep the next may be.
#[derive(Clone, Copy)]
pub(crate) struct LineBefore {
    indent: u32,
    /// Whether its last token is a colon.
    colon: bool,
}

/// A text so far: the line that it has come to, and the first of its lines that is deeper than the line before
/// lets it be.
#[derive(Clone, Copy)]
pub(crate) struct Depth {
    before: LineBefore,
    pub deep: Option<u32>,
}

impl Depth {
    /// The front of a text.
    pub(crate) fn at_front() -> Depth
        ensures { result ≡ record { before = record { indent = 0; colon = false }; deep = None } }
    {
        Depth {
            before: LineBefore {
                indent: 0,
                colon: false,
            },
            deep: None,
        }
    }

    /// The text with one more token.
    pub(crate) fn with(self, token: &Placed<'_>) -> Depth
        ensures { result ≡ record { before = line_with self.before token.now; deep = deep_with self.deep self.before token.now } }
    {
        Depth {
            before: self.before.with(token),
            deep: self.before.deep_with(self.deep, token),
        }
    }
}

impl LineBefore {
    fn forbids(self, start: Start) -> bool
        ensures { result ≡ forbids self start }
    {
        match start {
            Start::Line { indent } => {
                let deepest = if self.colon {
                    u64::from(self.indent) + 1
                } else {
                    u64::from(self.indent)
                };
                deepest < u64::from(indent)
            }
            Start::Paragraph | Start::Within | Start::Across => false,
        }
    }

    /// The first line that is too deep, one token later.
    fn deep_with(self, deep: Option<u32>, token: &Placed<'_>) -> Option<u32>
        ensures { result ≡ deep_with deep self token.now }
    {
        match deep {
            Some(line) => Some(line),
            None => {
                if self.forbids(token.at.start) {
                    Some(token.at.line)
                } else {
                    None
                }
            }
        }
    }

    fn with(self, token: &Placed<'_>) -> LineBefore
        ensures { result ≡ line_with self token.now }
    {
        LineBefore {
            indent: indent_with(self.indent, token.at.start),
            colon: is_colon(&token.piece),
        }
    }
}

/// The indent of a line that a token stands on.
fn indent_with(indent: u32, start: Start) -> u32
    ensures { result ≡ indent_with indent start }
{
    match start {
        Start::Paragraph => 0,
        Start::Line { indent } => indent,
        Start::Within | Start::Across => indent,
    }
}

fn is_colon(piece: &Piece<'_>) -> bool
    ensures { result ≡ is_colon piece.now }
{
    match piece {
        Piece::Mark(byte) => *byte == b':',
        Piece::Word(_) | Piece::Text(_) => false,
    }
}
