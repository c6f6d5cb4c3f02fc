//! A source's bytes: what is dropped before it is read, and what no source may hold.
ghost use Rattle.std.specs.Prelude.{◌≡◌, ◌≤◌, length, IfOk, MatchOption};
ghost use Rattle.std.specs.List.{prefix_len};
ghost use Rattle.std.specs.Str.Lossy.{utf8_valid_len};
ghost use Rattle.i7_lexer.specs.Sources.{text_of, without_mark, without_returns, is_unreturned, starts_with_feed, starts_with_control, is_control, is_late_control, plain_len, IsFirstBad, IsText};

use std::alloc::{AllocError, Global};
use std::str;

/// How many bytes a source may have.
pub(crate) const LONGEST: usize = 262_144;

/// The source without a byte order mark at its front, and without the returns before line feeds.
#[tactic(auto, unfolding(crate::specs::Sources::text_of))]
pub(crate) fn text_of(alloc: Global, source: &[u8]) -> Result<Vec<u8>, AllocError>
    ensures value { IfOk result (λ text. text.items ≡ text_of source.now) }
    ensures bound { IfOk result (λ text. length text.items ≤ length source.now) }
{
    Ok(without_returns(alloc, without_mark(source))?)
}

fn without_mark(source: &[u8]) -> &[u8]
    ensures value { result.now ≡ without_mark source.now }
    ensures bound { length result.now ≤ length source.now }
{
    match source {
        [0xEF, 0xBB, 0xBF, rest @ ..] => rest,
        _ => source,
    }
}

fn without_returns(alloc: Global, bytes: &[u8]) -> Result<Vec<u8>, AllocError>
    ensures value { IfOk result (λ out. out.items ≡ without_returns bytes.now) }
    ensures bound { IfOk result (λ out. length out.items ≤ length bytes.now) }
{
    let mut out = Vec::with_capacity(alloc, bytes.len())?;
    let mut rest = bytes;
    while let [byte, after @ ..] = rest {
        if *byte == b'\r' {
            if !starts_with_feed(after) {
                out.push(b'\r')?;
            }
            rest = after;
        } else {
            let (front, behind) = rest.split_at(unreturned_len(rest));
            out.extend_from_slice(front)?;
            rest = behind;
        }
    }
    Ok(out)
}

/// How many bytes stand before the first return.
fn unreturned_len(bytes: &[u8]) -> usize
    ensures value { result ≡ prefix_len is_unreturned bytes.now }
    ensures bound { result ≤ length bytes.now }
{
    bytes.iter().take_while(|byte| **byte != b'\r').count()
}

fn starts_with_feed(bytes: &[u8]) -> bool
    ensures { result ≡ starts_with_feed bytes.now }
{
    match bytes {
        [b'\n', ..] => true,
        _ => false,
    }
}

/// The first place where no character of a source stands, if there is one: bytes that aren't
/// UTF-8, or a control character that is no tab and no line feed.
pub(crate) fn bad_place(bytes: &[u8]) -> Option<usize>
    ensures { MatchOption result (IsText bytes.now) (IsFirstBad bytes.now) }
{
    let place = valid_len(bytes).min(plain_len(bytes));
    if place < bytes.len() {
        Some(place)
    } else {
        None
    }
}

fn valid_len(bytes: &[u8]) -> usize
    ensures { result ≡ utf8_valid_len bytes.now }
{
    match str::from_utf8(bytes) {
        Ok(text) => text.len(),
        Err(error) => error.valid_up_to(),
    }
}

/// How many bytes stand before the first control character.
fn plain_len(bytes: &[u8]) -> usize
    ensures { result ≡ plain_len bytes.now }
{
    let mut count = 0;
    let mut rest = bytes;
    while let [_, after @ ..] = rest {
        if starts_with_control(rest) {
            return count;
        }
        count += 1;
        rest = after;
    }
    count
}

fn starts_with_control(bytes: &[u8]) -> bool
    ensures { result ≡ starts_with_control bytes.now }
{
    match bytes {
        [] => false,
        [first] => is_control(*first),
        [first, second, ..] => is_control(*first) || is_late_control(*first, *second),
    }
}

/// Whether the byte is a control character that no source may hold.
#[tactic(auto, unfolding(crate::specs::Sources::is_control))]
fn is_control(byte: u8) -> bool
    ensures { result ≡ is_control byte }
{
    byte < 0x20 && byte != b'\t' && byte != b'\n' || byte == 0x7F
}

/// Whether the two bytes are one of the control characters past ASCII, U+0080 to U+009F.
#[tactic(auto, unfolding(crate::specs::Sources::is_late_control))]
fn is_late_control(first: u8, second: u8) -> bool
    ensures { result ≡ is_late_control first second }
{
    first == 0xC2 && second >= 0x80 && second < 0xA0
}
