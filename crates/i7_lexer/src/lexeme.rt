//! The lexemes that a source is made of, and how the first of them is cut off: `ball [red].` is a
//! word, white space, a comment and a mark.
ghost use Rattle.std.specs.Prelude.{◌≡◌, ◌-◌, ◌<◌, ◌≤◌, length, take, MatchOption, IfSome};
ghost use Rattle.std.specs.List.{prefix_len};
ghost use Rattle.i7_lexer.specs.Bytes.{is_letter, is_blank};
ghost use Rattle.i7_lexer.specs.Scans.{next_of, word_of, space_of, text_from, comment_from, closing, behind_quote};

use crate::byte_class::{ByteClass, class_of, is_blank, is_letter};
use crate::span::Span;

/// A lexeme that is kept as a token.
#[derive(Drop)]
pub(crate) enum Piece<'a> {
    Word(Span<'a>),
    /// A text, without its quotes.
    Text(Span<'a>),
    Mark(u8),
}

/// A lexeme: words and white space are as long as they can be.
#[derive(Drop)]
pub(crate) enum Lexeme<'a> {
    Kept(Piece<'a>),
    Space(Span<'a>),
    /// A comment, without its outermost brackets.
    Comment(Span<'a>),
}

/// The first lexeme and the bytes behind it; none where a text or a comment has no end, and in
/// front of nothing.
#[inline(always)]
pub(crate) fn next_lexeme(bytes: &[u8]) -> Option<(Lexeme<'_>, &[u8])>
    ensures { MatchOption result (next_of bytes.now ≡ None) (λ r. next_of bytes.now ≡ Some (r.0, r.1.now)) }
{
    match bytes {
        [] => None,
        [first, after @ ..] => match class_of(*first) {
            ByteClass::Letter => Some(word(bytes)),
            ByteClass::Blank => Some(space(bytes)),
            ByteClass::Quote => text(after),
            ByteClass::Bracket => comment(after),
            ByteClass::Other => Some((Lexeme::Kept(Piece::Mark(*first)), after)),
        },
    }
}

/// The bytes of a word in front, and the rest.
#[tactic(auto, unfolding(crate::specs::Scans::word_of))]
fn word(bytes: &[u8]) -> (Lexeme<'_>, &[u8])
    ensures { word_of bytes.now ≡ (result.0, result.1.now) }
{
    let (word, rest) = bytes.split_at(word_len(bytes));
    (Lexeme::Kept(Piece::Word(Span::new(word))), rest)
}

/// The white space in front, and the rest.
#[tactic(auto, unfolding(crate::specs::Scans::space_of))]
fn space(bytes: &[u8]) -> (Lexeme<'_>, &[u8])
    ensures { space_of bytes.now ≡ (result.0, result.1.now) }
{
    let (space, rest) = bytes.split_at(space_len(bytes));
    (Lexeme::Space(Span::new(space)), rest)
}

/// How many bytes of a word stand in front.
fn word_len(bytes: &[u8]) -> usize
    ensures value { result ≡ prefix_len is_letter bytes.now }
    ensures bound { result ≤ length bytes.now }
{
    bytes.iter().take_while(|byte| is_letter(**byte)).count()
}

/// How many bytes of white space stand in front.
pub(crate) fn space_len(bytes: &[u8]) -> usize
    ensures value { result ≡ prefix_len is_blank bytes.now }
    ensures bound { result ≤ length bytes.now }
{
    bytes.iter().take_while(|byte| is_blank(**byte)).count()
}

/// The text whose opening quote stands before these bytes.
#[tactic(auto, unfolding(crate::specs::Scans::text_from))]
fn text(bytes: &[u8]) -> Option<(Lexeme<'_>, &[u8])>
    ensures { MatchOption result (text_from bytes.now ≡ None) (λ r. text_from bytes.now ≡ Some (r.0, r.1.now)) }
{
    let rest = behind_quote(bytes)?;
    Some((
        Lexeme::Kept(Piece::Text(Span::new(front(bytes, rest)))),
        rest,
    ))
}

/// What stands before the last byte before the rest.
fn front<'a>(bytes: &'a [u8], rest: &[u8]) -> &'a [u8]
    requires { length rest.now < length bytes.now }
    ensures { result.now ≡ take (length bytes.now - length rest.now - 1) bytes.now }
{
    let (front, _) = bytes.split_at(bytes.len() - rest.len() - 1);
    front
}

/// What stands behind the first quote.
fn behind_quote(bytes: &[u8]) -> Option<&[u8]>
    ensures value { MatchOption result (behind_quote bytes.now ≡ None) (λ r. behind_quote bytes.now ≡ Some r.now) }
    ensures shorter { IfSome result (λ r. length r.now < length bytes.now) }
{
    let mut rest = bytes;
    while let [byte, after @ ..] = rest {
        if *byte == b'"' {
            return Some(after);
        }
        rest = after;
    }
    None
}

/// The comment whose opening bracket stands before these bytes.
#[tactic(auto, unfolding(crate::specs::Scans::comment_from))]
fn comment(bytes: &[u8]) -> Option<(Lexeme<'_>, &[u8])>
    ensures { MatchOption result (comment_from bytes.now ≡ None) (λ r. comment_from bytes.now ≡ Some (r.0, r.1.now)) }
{
    let rest = after_comment(bytes)?;
    Some((Lexeme::Comment(Span::new(front(bytes, rest))), rest))
}

/// What stands behind the bracket that closes the one before these bytes.
fn after_comment(bytes: &[u8]) -> Option<&[u8]>
    ensures value { MatchOption result (closing 0 bytes.now ≡ None) (λ r. closing 0 bytes.now ≡ Some r.now) }
    ensures shorter { IfSome result (λ r. length r.now < length bytes.now) }
{
    let mut depth: usize = 0;
    let mut rest = bytes;
    while let [byte, after @ ..] = rest {
        if *byte == b'[' {
            depth += 1;
        } else if *byte == b']' {
            if depth == 0 {
                return Some(after);
            }
            depth -= 1;
        }
        rest = after;
    }
    None
}
