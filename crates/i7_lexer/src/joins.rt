//! Tokens from placed lexemes: `fixed in place`, `switched on` and `switched off` become one word.
ghost use Rattle.std.specs.Prelude.{◌≡◌, ◌≤◌, ◌++◌, length, ◌∷◌, ◌||◌, codes, drop, take, IfOk, OnOk};
ghost use Rattle.std.specs.List.{flat_map};
ghost use Rattle.i7_lexer.specs.Texts.{folded};
ghost use Rattle.i7_lexer.specs.Tokens.{tokens_of, joined_len, is_switched, is_fixed_in_place, says, continues, goes_on, over_break, spaced, start_of, with_other};
ghost use Rattle.i7_lexer.specs.declared.lexeme.Piece.TheVariants.{Word};
ghost use Rattle.i7_lexer.specs.declared.token.TokenKind.TheVariants.{Text as TextToken};

use crate::cursor::{Cursor, newlines};
use crate::lexeme::Piece;
use crate::packed::Sort;
use crate::placed::{Placed, Places};
use crate::text::folded;
use crate::{PackedToken, Start};
use std::alloc::{AllocError, Global};

/// The tokens of these lexemes, at most so many of which are kept at once.
pub(crate) fn tokens_of(
    alloc: Global,
    placed: &Places<'_>,
    count: usize,
) -> Result<Vec<PackedToken>, AllocError>
    ensures { IfOk result (λ tokens. tokens.items ≡ tokens_of placed.now) }
{
    let mut tokens = Vec::with_capacity(alloc, count)?;
    let mut rest = placed.again();
    while let Some((first, after)) = rest.first() {
        let (token, behind) = front_token(alloc, &first, &after)?;
        tokens.push(token)?;
        rest = behind;
    }
    Ok(tokens)
}

/// The first token, and the lexemes behind it.
fn front_token<'a>(
    alloc: Global,
    first: &Placed<'_>,
    after: &Places<'a>,
) -> Result<(PackedToken, Places<'a>), AllocError>
    ensures front { IfOk result (λ front. front.0 ∷ tokens_of front.1 ≡ tokens_of (first.now ∷ after.now)) }
    ensures within { IfOk result (λ front. length front.1 ≤ length after.now) }
{
    match &first.piece {
        Piece::Word(word) => Ok(word_token(alloc, first, word.as_slice(), after)?),
        Piece::Text(inner) => Ok((
            text_token(alloc, inner.as_slice(), first.at)?,
            after.again(),
        )),
        Piece::Mark(byte) => Ok((
            PackedToken::mark(*byte, first.at.line, first.at.start),
            after.again(),
        )),
    }
}

/// The token of a text.
#[tactic(auto, using(crate::proofs::Folding::folded_unbroken))]
fn text_token(alloc: Global, inner: &[u8], at: Cursor) -> Result<PackedToken, AllocError>
    ensures { IfOk result (λ token. token ≡ record { kind = TextToken (folded inner.now); line = at.line; start = at.start }) }
{
    if newlines(inner) == 0 {
        return Ok(PackedToken::copied(alloc, Sort::Text, inner, at.line, at.start)?);
    }
    let text = folded(alloc, inner)?;
    Ok(PackedToken::copied(alloc, Sort::Text, text.as_slice(), at.line, at.start)?)
}

/// The token of a word and of the words that are one word with it, and the lexemes behind them.
fn word_token<'a>(
    alloc: Global,
    first: &Placed<'_>,
    word: &[u8],
    after: &Places<'a>,
) -> Result<(PackedToken, Places<'a>), AllocError>
    requires { first.now.piece ≡ Word word.now }
    ensures front { IfOk result (λ front. front.0 ∷ tokens_of front.1 ≡ tokens_of (first.now ∷ after.now)) }
    ensures within { IfOk result (λ front. length front.1 ≤ length after.now) }
{
    let at = first.at;
    let count = joined_len(first, after);
    if count == 0 {
        let token = PackedToken::copied(alloc, Sort::Word, word, at.line, at.start)?;
        return Ok((token, after.again()));
    }
    let mut bytes = Vec::from_slice(alloc, word)?;
    let (start, behind) = push_spaced_words(&mut bytes, at.start, after, count)?;
    let token = PackedToken::copied(alloc, Sort::Word, bytes.as_slice(), at.line, start)?;
    Ok((token, behind))
}

/// Writes so many words, a space before each, and answers how the word stands that begins so and has them, and
/// the lexemes behind them.
fn push_spaced_words<'a>(
    bytes: &mut Vec<u8>,
    begins: Start,
    others: &Places<'a>,
    count: usize,
) -> Result<(Start, Places<'a>), AllocError>
    ensures words { OnOk result (bytes.new.items ≡ bytes.old.items ++ flat_map (λ other. spaced other.piece) (take count others.now)) }
    ensures start { IfOk result (λ found. found.0 ≡ start_of begins (take count others.now)) }
    ensures rest { IfOk result (λ found. found.1 ≡ drop count others.now) }
{
    let mut left = count;
    let mut start = begins;
    let mut rest = others.again();
    while left > 0 {
        let Some((other, after)) = rest.first() else {
            return Ok((start, rest));
        };
        push_spaced(bytes, &other.piece)?;
        start = with_other(start, other.at.start);
        left -= 1;
        rest = after;
    }
    Ok((start, rest))
}

/// How a word stands that begins so, with one more of its words.
fn with_other(start: Start, other: Start) -> Start
    ensures { result ≡ with_other start other }
{
    match other {
        Start::Line { .. } => over_break(start),
        Start::Paragraph | Start::Within | Start::Across => start,
    }
}

/// How a word stands that begins so and goes over a line break.
fn over_break(start: Start) -> Start
    ensures { result ≡ over_break start }
{
    match start {
        Start::Within | Start::Across => Start::Across,
        Start::Paragraph | Start::Line { .. } => start,
    }
}

/// Whether other words may be one word with this: `fixed` and `switched` alone have such.
fn may_join(first: &Placed<'_>) -> bool
    ensures { result ≡ says (codes "switched") first.now.piece || says (codes "fixed") first.now.piece }
{
    says(first, b"switched") || says(first, b"fixed")
}

/// How many of the lexemes behind the first are one word with it.
#[tactic(auto, using(crate::proofs::Joining::never_joined))]
fn joined_len(first: &Placed<'_>, after: &Places<'_>) -> usize
    ensures { result ≡ joined_len first.now after.now }
{
    if may_join(first) {
        len_joined(first, after)
    } else {
        0
    }
}

/// How many of the lexemes behind the first are one word with it, any word.
fn len_joined(first: &Placed<'_>, after: &Places<'_>) -> usize
    ensures { result ≡ joined_len first.now after.now }
{
    match after.first() {
        None => 0,
        Some((second, behind)) => match behind.first() {
            None => usize::from(is_switched(first, &second)),
            Some((third, _)) => {
                if is_switched(first, &second) {
                    1
                } else if is_fixed_in_place(first, &second, &third) {
                    2
                } else {
                    0
                }
            }
        },
    }
}

#[tactic(auto, unfolding(crate::specs::Tokens::is_switched))]
fn is_switched(first: &Placed<'_>, second: &Placed<'_>) -> bool
    ensures { result ≡ is_switched first.now second.now }
{
    says(first, b"switched") && (continues(second, b"on") || continues(second, b"off"))
}

#[tactic(auto, unfolding(crate::specs::Tokens::is_fixed_in_place))]
fn is_fixed_in_place(first: &Placed<'_>, second: &Placed<'_>, third: &Placed<'_>) -> bool
    ensures { result ≡ is_fixed_in_place first.now second.now third.now }
{
    says(first, b"fixed") && continues(second, b"in") && continues(third, b"place")
}

/// Whether this is that word, in either case.
fn says(placed: &Placed<'_>, word: &[u8]) -> bool
    ensures { result ≡ says word.now placed.now.piece }
{
    match &placed.piece {
        Piece::Word(bytes) => bytes.as_slice().eq_ignore_ascii_case(word),
        Piece::Text(_) | Piece::Mark(_) => false,
    }
}

/// Whether this is that word, and no blank line parts it from the token before.
fn continues(placed: &Placed<'_>, word: &[u8]) -> bool
    ensures { result ≡ continues word.now placed.now }
{
    goes_on(placed.at.start) && says(placed, word)
}

/// Whether a token that begins so goes on with the paragraph of the token before.
fn goes_on(start: Start) -> bool
    ensures { result ≡ goes_on start }
{
    match start {
        Start::Paragraph => false,
        Start::Line { .. } | Start::Within | Start::Across => true,
    }
}

/// Writes a space and the word.
fn push_spaced(bytes: &mut Vec<u8>, piece: &Piece<'_>) -> Result<(), AllocError>
    ensures { OnOk result (bytes.new.items ≡ bytes.old.items ++ spaced piece.now) }
{
    if let Piece::Word(word) = piece {
        bytes.push(b' ')?;
        bytes.extend_from_slice(word.as_slice())?;
    }
    Ok(())
}
