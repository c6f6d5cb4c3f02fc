//! Literals out of range, each told at the line of the stretch in which it stands.
ghost use Rattle.std.specs.Prelude.{◌≡◌, map};
ghost use Rattle.std.specs.List.{list_any};
ghost use Rattle.i7_sentences.specs.Bodies.{phrases_of};
ghost use Rattle.i7_sentences.specs.Lowest.{lowest};
ghost use Rattle.i7_sentences.specs.Stretches.{bad_literal_in, holds_bad_literal, phrase_stretch};

use crate::body::PhraseLine;
use crate::brackets::has_bad_bracket;
use crate::low::lower_of;
use i7_lexer::{PackedToken, TokenKind};
use world_meaning::is_out_of_range;

/// Whether a token is a literal out of range, or a text with one between its brackets.
fn holds_bad_literal(token: &PackedToken) -> bool
    ensures { result ≡ holds_bad_literal token.now }
{
    match token.kind() {
        TokenKind::Text(text) => has_bad_bracket(text.as_slice()),
        TokenKind::Word(word) => is_out_of_range(word.as_slice()),
        TokenKind::Mark(_) => false,
    }
}

/// Whether a token holds a literal out of range.
fn any_holds_bad_literal(tokens: &[PackedToken]) -> bool
    ensures { result ≡ list_any holds_bad_literal tokens.now }
{
    tokens.iter().any(|token| holds_bad_literal(token))
}

/// The line of a stretch, if it holds a literal out of range.
pub fn bad_literal_in(line: u32, tokens: &[PackedToken]) -> Option<u32>
    ensures { result ≡ bad_literal_in (record { line = line; tokens = tokens.now }) }
{
    if any_holds_bad_literal(tokens) {
        Some(line)
    } else {
        None
    }
}

/// The lowest line of a phrase that holds one.
#[tactic(auto, using(crate::proofs::Lowest::lower_steps))]
pub fn bad_phrase(phrases: &[PhraseLine<'_>]) -> Option<u32>
    ensures { result ≡ lowest bad_literal_in (map phrase_stretch (phrases_of phrases.now)) }
{
    let mut low = None;
    let mut rest = phrases;
    while let [phrase, after @ ..] = rest {
        low = lower_of(low, bad_literal_in(phrase.line, phrase.tokens));
        rest = after;
    }
    low
}
