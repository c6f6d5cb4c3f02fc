//! The literals between the brackets of a text.
ghost use Rattle.std.specs.Prelude.{◌≡◌, ◌<◌, ◌≤◌, [], ◌∷◌, length, MatchOption};
ghost use Rattle.std.specs.List.{after_first, before_first, position_or_len};
ghost use Rattle.i7_sentences.specs.BracketedWords.{bracketed, has_bad_bracket, has_bad_word, is_byte, is_gap, IsPartedAt};

use i7_lexer::is_letter;
use world_meaning::is_out_of_range;

/// How many bytes stand in front of the first such byte.
fn place_of(byte: u8, bytes: &[u8]) -> usize
    ensures place { result ≡ position_or_len (is_byte byte) bytes.now }
    ensures within { result ≤ length bytes.now }
{
    bytes.iter().take_while(|other| **other != byte).count()
}

/// The bytes in front of the first such byte, and those behind it; none where there is none.
pub fn parted_at(byte: u8, bytes: &[u8]) -> Option<(&[u8], &[u8])>
    ensures { IsPartedAt (is_byte byte) bytes.now result }
{
    let (front, rest) = bytes.split_at(place_of(byte, bytes));
    match rest {
        [] => None,
        [_, behind @ ..] => Some((front, behind)),
    }
}

/// The bytes behind the first `[`; none without one.
pub fn behind_opening(bytes: &[u8]) -> &[u8]
    ensures { result.now ≡ after_first (is_byte 91) bytes.now }
{
    match parted_at(b'[', bytes) {
        None => &[],
        Some((_, behind)) => behind,
    }
}

/// The bytes behind the first `]`; none without one.
pub fn behind_closing(bytes: &[u8]) -> &[u8]
    ensures { result.now ≡ after_first (is_byte 93) bytes.now }
{
    match parted_at(b']', bytes) {
        None => &[],
        Some((_, behind)) => behind,
    }
}

/// The bytes in front of the first `]`; all of them without one.
pub fn in_front_of_closing(bytes: &[u8]) -> &[u8]
    ensures { result.now ≡ before_first (is_byte 93) bytes.now }
{
    let (front, _) = bytes.split_at(place_of(b']', bytes));
    front
}

/// What stands between brackets up to the first `]`, and the bytes behind that.
#[tactic(auto, using(crate::proofs::Bracketing::bracket_steps))]
fn first_bracketed(text: &[u8]) -> Option<(&[u8], &[u8])>
    ensures first { MatchOption result (bracketed text.now ≡ []) (λ parts. bracketed text.now ≡ parts.0.now ∷ bracketed parts.1.now) }
    ensures shorter { MatchOption result (bracketed text.now ≡ []) (λ parts. length parts.1.now < length text.now) }
{
    match parted_at(b']', text) {
        None => None,
        Some((part, behind)) => Some((behind_opening(part), behind)),
    }
}

/// Whether the byte is of no word.
pub fn is_gap(byte: u8) -> bool
    ensures { result ≡ is_gap byte }
{
    !is_letter(byte)
}

/// Whether one of the words is a literal out of range.
fn has_bad_word(bytes: &[u8]) -> bool
    ensures { result ≡ has_bad_word bytes.now }
{
    bytes
        .split(|byte| is_gap(*byte))
        .any(|word| is_out_of_range(word))
}

/// Whether a literal out of range stands between the brackets of a text.
#[tactic(auto, unfolding(crate::specs::BracketedWords::has_bad_bracket))]
pub fn has_bad_bracket(text: &[u8]) -> bool
    ensures { result ≡ has_bad_bracket text.now }
{
    let mut rest = text;
    while let Some((part, behind)) = first_bracketed(rest) {
        if has_bad_word(part) {
            return true;
        }
        rest = behind;
    }
    false
}
