//! The lexemes that are tokens, each with its place: found as they are asked for, and never listed.
ghost use Rattle.std.specs.Prelude.{◌≡◌, ◌<◌, ◌^◌, ◌∷◌, [], length, MatchOption};
ghost use Rattle.i7_lexer.specs.Lexing.{placed_in};
ghost use Rattle.i7_lexer.specs.Places.{at_front};

use crate::cursor::Cursor;
use crate::lexeme::{Lexeme, Piece, next_lexeme};
use std::marker::Model;

/// A lexeme that is kept as a token, and the place before it.
#[derive(Drop)]
pub(crate) struct Placed<'a> {
    pub piece: Piece<'a>,
    pub at: Cursor,
}

/// The words, texts and marks from a place of a text on, up to where a text or a comment has no end;
/// seen by contracts as their list.
#[derive(Drop)]
pub(crate) struct Places<'a> {
    at: Cursor,
    rest: &'a [u8],
}

impl<'a> Model for Places<'a> {
    ghost use Rattle.std.specs.Prelude.{List, ◌+◌, ◌<◌, ◌^◌, length};
    ghost use Rattle.i7_lexer.specs.declared.placed.Placed.{Placed};

    ghost Value = { List Placed };

    ghost use Rattle.i7_lexer.specs.Lexing.{placed_in};

    ghost view = { λ p. placed_in p.at p.rest.now };

    ghost invariant = { λ p. p.at.line + length p.rest.now < 2 ^ 32 };
}

impl<'a> Places<'a> {
    /// Those of a text.
    pub(crate) fn new(text: &'a [u8]) -> Places<'a>
        requires { length text.now < 2 ^ 31 }
        ensures { result ≡ placed_in at_front text.now }
    {
        Places {
            at: Cursor::at_front(),
            rest: text,
        }
    }

    /// The same again.
    pub(crate) fn again(&self) -> Places<'a>
        ensures { result ≡ self.now }
    {
        Places {
            at: self.at,
            rest: self.rest,
        }
    }

    /// The first, and those behind it.
    #[inline(always)]
    pub(crate) fn first(&self) -> Option<(Placed<'a>, Places<'a>)>
        ensures { MatchOption result (self.now ≡ []) (λ r. self.now ≡ r.0 ∷ r.1) }
    {
        let mut at = self.at;
        let mut rest = self.rest;
        while let Some((lexeme, after)) = next_lexeme(rest) {
            let behind = at.after(&lexeme);
            if let Lexeme::Kept(piece) = lexeme {
                return Some((
                    Placed { piece, at },
                    Places {
                        at: behind,
                        rest: after,
                    },
                ));
            }
            at = behind;
            rest = after;
        }
        None
    }
}
