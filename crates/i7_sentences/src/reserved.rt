//! The reserved words: where in the letters of a form none may stand.
ghost use Rattle.std.specs.Prelude.{◌≡◌, true, map};
ghost use Rattle.std.specs.List.{list_any, slice_split};
ghost use Rattle.i7_sentences.specs.Keywords.{is_sign};
ghost use Rattle.i7_sentences.specs.Names.{names_from};
ghost use Rattle.i7_sentences.specs.Reserved.{has_reserved_among, has_reserved_in, is_no_adjective, is_reserved_name, is_stray, is_stray_beside_and};
ghost use Rattle.i7_sentences.specs.declared.keyword.Keyword.TheVariants as keyword;

use crate::name::{name_words, rest_of};
use crate::names::name_len;
use crate::tagged::Tagged;
use crate::{Class, Keyword, Piece};

/// Whether a name holds a reserved word, its free article aside.
fn is_reserved_name(letter: &[Tagged<'_>]) -> bool
    ensures { result ≡ is_reserved_name letter.now }
{
    name_words(letter).iter().any(|word| word.is_reserved())
}

/// Whether one of the names of a list does.
#[tactic(auto, using(crate::proofs::Naming::names_steps))]
fn has_reserved_name(letter: &[Tagged<'_>]) -> bool
    ensures { result ≡ list_any is_reserved_name (names_from true letter.now) }
{
    let mut rest = letter;
    while !rest.is_empty() {
        let (name, behind) = rest.split_at(name_len(rest));
        if is_reserved_name(name) {
            return true;
        }
        rest = rest_of(behind);
    }
    false
}

/// Whether the token is a reserved word, and no article and not `not`.
#[tactic(auto, unfolding(crate::specs::Reserved::is_stray))]
fn is_stray(token: &Tagged<'_>) -> bool
    ensures { result ≡ is_stray token.now }
{
    token.is_joining() && !token.is_sign(Keyword::Not)
}

/// Whether a token is one.
fn has_stray(letter: &[Tagged<'_>]) -> bool
    ensures { result ≡ list_any is_stray letter.now }
{
    letter.iter().any(|token| is_stray(token))
}

/// The same where `and` parts adjectives.
#[tactic(auto, unfolding(crate::specs::Reserved::is_stray_beside_and))]
fn is_stray_beside_and(token: &Tagged<'_>) -> bool
    ensures { result ≡ is_stray_beside_and token.now }
{
    is_stray(token) && !token.is_sign(Keyword::And)
}

/// Whether a token is one.
fn has_stray_beside_and(letter: &[Tagged<'_>]) -> bool
    ensures { result ≡ list_any is_stray_beside_and letter.now }
{
    letter.iter().any(|token| is_stray_beside_and(token))
}

/// Whether the words are none, or an article or `not` alone.
fn is_no_adjective(words: &[Tagged<'_>]) -> bool
    ensures { result ≡ is_no_adjective words.now }
{
    match words {
        [] => true,
        [word] => word.is_article() || word.is_sign(Keyword::Not),
        _ => false,
    }
}

/// Whether an adjective lacks before or behind an `and`.
fn lacks_adjective(letter: &[Tagged<'_>]) -> bool
    ensures { result ≡ list_any is_no_adjective (slice_split (is_sign keyword.And) letter.now) }
{
    letter
        .split(|token| token.is_sign(Keyword::And))
        .any(|part| is_no_adjective(part))
}

/// Whether a letter of the class holds a reserved word where none may stand.
fn has_reserved_in(class: Class, letter: &[Tagged<'_>]) -> bool
    ensures { result ≡ has_reserved_in class letter.now }
{
    match class {
        Class::Name => is_reserved_name(letter),
        Class::Names => has_reserved_name(letter),
        Class::What => has_stray(letter),
        Class::Usual => has_stray_beside_and(letter) || lacks_adjective(letter),
        _ => false,
    }
}

/// Whether a letter of these pieces holds a reserved word where none may stand.
pub fn has_reserved_among(pieces: &[Piece], letters: &[&[Tagged<'_>]]) -> bool
    ensures { result ≡ has_reserved_among pieces.now (map (λ letter. letter.now) letters.now) }
{
    match pieces {
        [] => false,
        [Piece::Word(_), after @ ..] => has_reserved_among(after, letters),
        [Piece::Letter(class), after @ ..] => match letters {
            [] => false,
            [letter, others @ ..] => has_reserved_in(*class, letter)
                || has_reserved_among(after, others),
        },
    }
}
