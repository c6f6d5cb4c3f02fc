//! What a letter of a form is: a text, a number, a direction.
ghost use Rattle.std.specs.Prelude.{◌≡◌, IfOk};
ghost use Rattle.i7_sentences.specs.Assertions.{describing_text, direction_at, number_in, plain_text, side_direction};

use crate::Keyword;
use crate::describing::{describing, is_plain};
use crate::tagged::Tagged;
use crate::word::word_of;
use i7_lexer::TokenKind;
use std::alloc::{AllocError, Global};
use world_meaning::{Direction, TextBytes, literal_of};

/// The text that a letter is, if it may describe.
pub(crate) fn describing_text(
    alloc: Global,
    letter: &[Tagged<'_>],
) -> Result<Option<TextBytes>, AllocError>
    ensures { IfOk result (λ text. text ≡ describing_text letter.now) }
{
    match letter {
        [token] => match token.token().kind() {
            TokenKind::Text(text) => Ok(describing(alloc, text.as_slice())?),
            TokenKind::Word(_) | TokenKind::Mark(_) => Ok(None),
        },
        _ => Ok(None),
    }
}

/// The text that a letter is, if it holds no bracket that opens.
pub(crate) fn plain_text(
    alloc: Global,
    letter: &[Tagged<'_>],
) -> Result<Option<TextBytes>, AllocError>
    ensures { IfOk result (λ text. text ≡ plain_text letter.now) }
{
    match letter {
        [token] => match token.token().kind() {
            TokenKind::Text(text) => {
                if is_plain(text.as_slice()) {
                    Ok(Some(TextBytes::copied(alloc, text.as_slice())?))
                } else {
                    Ok(None)
                }
            }
            TokenKind::Word(_) | TokenKind::Mark(_) => Ok(None),
        },
        _ => Ok(None),
    }
}

/// The number that a letter is.
pub(crate) fn number_in(letter: &[Tagged<'_>]) -> i32
    ensures { result ≡ number_in letter.now }
{
    match letter {
        [token, ..] => literal_of(word_of(token.token())),
        [] => literal_of(&[]),
    }
}

/// The direction of `above`, `below`, or a direction's name.
fn direction_at(token: &Tagged<'_>) -> Option<Direction>
    ensures { result ≡ direction_at token.now }
{
    if token.is_sign(Keyword::Above) {
        Some(Direction::Up)
    } else if token.is_sign(Keyword::Below) {
        Some(Direction::Down)
    } else {
        token.direction()
    }
}

/// The direction of the words that lead from a room to one beside it.
pub(crate) fn side_direction(side: &[Tagged<'_>]) -> Option<Direction>
    ensures { result ≡ side_direction side.now }
{
    match side {
        [] => None,
        [first, ..] => direction_at(first),
    }
}
