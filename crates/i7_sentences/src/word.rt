//! What a token is, its bytes, and the direction that a word names.
ghost use Rattle.std.specs.Prelude.{◌≡◌, find};
ghost use Rattle.std.specs.Char.{eq_ignore_ascii_case};
ghost use Rattle.std.specs.List.{list_any};
ghost use Rattle.i7_sentences.specs.Words.{as_read, direction_named, is_text, is_word, may_lead, names_direction, word_of};

use i7_lexer::{PackedToken, TokenKind};
use world_meaning::{Direction, is_spelled};

/// The letters that the directions' names begin with.
pub const COMPASS: [u8; 8] = [b'n', b's', b'e', b'w', b'u', b'd', b'i', b'o'];

/// Whether the letter is one of these, its case aside.
fn is_any_letter(letter: u8, letters: &[u8]) -> bool
    ensures { result ≡ list_any (λ other. eq_ignore_ascii_case letter other) letters.now }
{
    letters
        .iter()
        .any(|other| letter.eq_ignore_ascii_case(other))
}

/// Whether the word begins as a direction's name does.
#[tactic(auto, unfolding(crate::specs::Words::may_lead))]
fn may_lead(word: &[u8]) -> bool
    ensures { result ≡ may_lead word.now }
{
    match word {
        [] => false,
        [letter, ..] => is_any_letter(*letter, &COMPASS),
    }
}

/// A word as it is read: `are` is `is`, every other word is as it is written.
#[tactic(auto, unfolding(crate::specs::Words::as_read))]
pub fn as_read(word: &[u8]) -> &[u8]
    ensures { result.now ≡ as_read word.now }
{
    if is_spelled(word, b"are") {
        b"is"
    } else {
        word
    }
}

/// The bytes of a word as it is read; none of a text or a mark.
pub fn word_of(token: &PackedToken) -> &[u8]
    ensures { result.now ≡ word_of token.now }
{
    match token.kind() {
        TokenKind::Word(word) => as_read(word.as_slice()),
        TokenKind::Text(_) | TokenKind::Mark(_) => &[],
    }
}

/// Whether the token is a word.
pub fn is_word(token: &PackedToken) -> bool
    ensures { result ≡ is_word token.now }
{
    match token.kind() {
        TokenKind::Word(_) => true,
        TokenKind::Text(_) | TokenKind::Mark(_) => false,
    }
}

/// Whether the token is a text.
pub fn is_text(token: &PackedToken) -> bool
    ensures { result ≡ is_text token.now }
{
    match token.kind() {
        TokenKind::Text(_) => true,
        TokenKind::Word(_) | TokenKind::Mark(_) => false,
    }
}

/// Whether the word names the direction.
fn names_direction(word: &[u8], direction: Direction) -> bool
    ensures { result ≡ names_direction word.now direction }
{
    is_spelled(word, direction.name())
}

/// The first of the directions that the word names.
fn first_named(word: &[u8], directions: &[Direction]) -> Option<Direction>
    ensures { result ≡ find (names_direction word.now) directions.now }
{
    let mut rest = directions;
    while let [direction, after @ ..] = rest {
        if names_direction(word, *direction) {
            return Some(*direction);
        }
        rest = after;
    }
    None
}

/// The direction that a word names in a sentence; short words aren't read there.
#[tactic(auto, using(crate::proofs::Leading::not_leading))]
pub fn direction_of(word: &[u8]) -> Option<Direction>
    ensures { result ≡ direction_named word.now }
{
    if may_lead(word) {
        first_named(word, &Direction::ALL)
    } else {
        None
    }
}
