//! The shape of a condition, which is asked before any name is looked at.
ghost use Rattle.std.specs.Prelude.{◌≡◌};
ghost use Rattle.std.specs.List.{list_any};
ghost use Rattle.world_meaning.specs.Spelling.{is_spelled};
ghost use Rattle.i7_sentences.specs.Conditions.{are_pieces_read, inner, is_basic, is_condition, is_of_darkness, is_piece_read, is_verb, parts_conditions};

use crate::TextPiece;
use crate::word_list::are_spelled;
use world_meaning::{TextBytes, is_spelled};

/// What joins conditions.
pub const JOINTS: [&[u8]; 2] = [b"or", b"and"];

/// The verbs of conditions.
pub const VERBS: [&[u8]; 5] = [b"is", b"has", b"carries", b"wears", b"encloses"];

/// The condition that there is no light.
pub const IN_DARKNESS: [&[u8]; 2] = [b"in", b"darkness"];

/// The condition that there is light.
pub const NOT_IN_DARKNESS: [&[u8]; 3] = [b"not", b"in", b"darkness"];

/// Whether the word is one of these.
fn is_any(word: &[u8], words: &[&[u8]]) -> bool
    ensures { result ≡ list_any (λ other. is_spelled word.now other.now) words.now }
{
    words.iter().any(|other| is_spelled(word, other))
}

/// Whether the word parts two conditions.
fn parts_conditions(word: &TextBytes) -> bool
    ensures { result ≡ parts_conditions word.now }
{
    is_any(word.as_slice(), &JOINTS)
}

/// Whether the word is a verb of conditions.
fn is_verb(word: &TextBytes) -> bool
    ensures { result ≡ is_verb word.now }
{
    is_any(word.as_slice(), &VERBS)
}

/// The words between the first and the last.
fn inner(words: &[TextBytes]) -> &[TextBytes]
    ensures { result.now ≡ inner words.now }
{
    match words {
        [] => words,
        [_, rest @ ..] => {
            let (front, _) = rest.split_at(rest.len().saturating_sub(1));
            front
        }
    }
}

/// Whether a verb stands among the words.
fn has_verb(words: &[TextBytes]) -> bool
    ensures { result ≡ list_any is_verb words.now }
{
    words.iter().any(|word| is_verb(word))
}

/// Whether the words are the condition of darkness or of light.
fn is_of_darkness(words: &[TextBytes]) -> bool
    ensures { result ≡ is_of_darkness words.now }
{
    are_spelled(words, &IN_DARKNESS) || are_spelled(words, &NOT_IN_DARKNESS)
}

/// Whether the words are a condition that joins no others.
#[tactic(auto, unfolding(crate::specs::Conditions::is_basic))]
fn is_basic(words: &[TextBytes]) -> bool
    ensures { result ≡ is_basic words.now }
{
    is_of_darkness(words) || has_verb(inner(words))
}

/// Whether the words have the shape of a condition: between `or` and `and`, each part has a verb with words
/// on both sides, or is `in darkness` or `not in darkness`.
pub fn is_condition(words: &[TextBytes]) -> bool
    ensures { result ≡ is_condition words.now }
{
    words
        .split(|word| parts_conditions(word))
        .all(|part| is_basic(part))
}

/// Whether a piece of a text is no if, or an if with a condition.
fn is_piece_read(piece: &TextPiece) -> bool
    ensures { result ≡ is_piece_read piece.now }
{
    match piece {
        TextPiece::If(condition) => is_condition(condition.as_slice()),
        _ => true,
    }
}

/// Whether the ifs among the pieces of a text have conditions.
pub fn are_pieces_read(pieces: &[TextPiece]) -> bool
    ensures { result ≡ are_pieces_read pieces.now }
{
    pieces.iter().all(|piece| is_piece_read(piece))
}
