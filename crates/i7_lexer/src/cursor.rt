//! A place between two lexemes, and how a token that begins there stands on its line. White
//! space with one line break begins a line, with two or more a paragraph; a comment begins neither.
ghost use Rattle.std.specs.Prelude.{◌≡◌, ◌+◌, ◌<◌, ◌≤◌, ◌^◌, length};
ghost use Rattle.i7_lexer.specs.Bytes.{newlines};
ghost use Rattle.std.specs.List.{prefix_len};
ghost use Rattle.std.specs.Prelude.{◌==◌};
ghost use Rattle.i7_lexer.specs.Lexemes.{spelled};
ghost use Rattle.i7_lexer.specs.Places.{at_front, after, breaks_of, start_after, start_behind, line_start, indent_of, behind_break};

use crate::Start;
use crate::lexeme::{Lexeme, Piece};

/// A place between two lexemes.
#[derive(Clone, Copy)]
pub(crate) struct Cursor {
    /// The line, counted from 1.
    pub line: u32,
    /// How a token that begins here stands on its line.
    pub start: Start,
}

impl Cursor {
    /// The front of a source.
    pub(crate) fn at_front() -> Cursor
        ensures { result ≡ at_front }
    {
        Cursor {
            line: 1,
            start: Start::Paragraph,
        }
    }

    /// The place behind a lexeme that begins here.
    #[inline(always)]
    pub(crate) fn after(self, lexeme: &Lexeme<'_>) -> Cursor
        requires lines { self.line + breaks_of lexeme.now < 2 ^ 32 }
        requires short { length (spelled lexeme.now) < 2 ^ 32 }
        ensures { result ≡ after self lexeme.now }
    {
        Cursor {
            line: self.line + breaks_of(lexeme) as u32,
            start: start_after(self.start, lexeme),
        }
    }
}

/// How many line breaks a lexeme holds.
fn breaks_of(lexeme: &Lexeme<'_>) -> usize
    ensures { result ≡ breaks_of lexeme.now }
{
    match lexeme {
        Lexeme::Kept(Piece::Word(_) | Piece::Mark(_)) => 0,
        Lexeme::Kept(Piece::Text(bytes)) | Lexeme::Space(bytes) | Lexeme::Comment(bytes) => {
            newlines(bytes.as_slice())
        }
    }
}

fn start_after(start: Start, lexeme: &Lexeme<'_>) -> Start
    requires { length (spelled lexeme.now) < 2 ^ 32 }
    ensures { result ≡ start_after start lexeme.now }
{
    match lexeme {
        Lexeme::Kept(_) => Start::Within,
        Lexeme::Space(space) => start_behind(start, space.as_slice()),
        Lexeme::Comment(_) => start,
    }
}

/// How a token stands behind white space.
#[tactic(auto, unfolding(crate::specs::Places::start_behind))]
fn start_behind(start: Start, space: &[u8]) -> Start
    requires { length space.now < 2 ^ 32 }
    ensures { result ≡ start_behind start space.now }
{
    let breaks = newlines(space);
    if breaks == 0 {
        start
    } else if breaks == 1 {
        line_start(start, indent_of(space))
    } else {
        Start::Paragraph
    }
}

fn line_start(start: Start, indent: u32) -> Start
    ensures { result ≡ line_start start indent }
{
    match start {
        Start::Paragraph => Start::Paragraph,
        Start::Line { .. } | Start::Within | Start::Across => Start::Line { indent },
    }
}

/// How many tabs stand right behind the first line break.
fn indent_of(space: &[u8]) -> u32
    requires { length space.now < 2 ^ 32 }
    ensures { result ≡ indent_of space.now }
{
    tabs_in_front(behind_break(space)) as u32
}

fn tabs_in_front(bytes: &[u8]) -> usize
    ensures value { result ≡ prefix_len (λ b. b == 9) bytes.now }
    ensures bound { result ≤ length bytes.now }
{
    bytes.iter().take_while(|byte| **byte == b'\t').count()
}

/// What stands behind the first line break.
fn behind_break(space: &[u8]) -> &[u8]
    ensures value { result.now ≡ behind_break space.now }
    ensures bound { length result.now ≤ length space.now }
{
    let mut rest = space;
    while let [byte, after @ ..] = rest {
        if *byte == b'\n' {
            return after;
        }
        rest = after;
    }
    &[]
}

/// How many line feeds these bytes hold.
#[tactic(auto, unfolding(crate::specs::Bytes::newlines))]
pub(crate) fn newlines(bytes: &[u8]) -> usize
    ensures value { result ≡ newlines bytes.now }
    ensures bound { result ≤ length bytes.now }
{
    bytes.iter().filter(|byte| **byte == b'\n').count()
}
