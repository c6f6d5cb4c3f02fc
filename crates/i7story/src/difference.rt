//! How two answers differ, by their words.
use std::io::{self, Write};

/// How many bytes two texts have alike in front.
fn alike_in_front(one: &[u8], other: &[u8]) -> usize {
    match one.iter().zip(other.iter()).position(|(a, b)| a != b) {
        Some(count) => count,
        None => one.len().min(other.len()),
    }
}

/// How many bytes two texts have alike behind.
fn alike_behind(one: &[u8], other: &[u8]) -> usize {
    match one
        .iter()
        .rev()
        .zip(other.iter().rev())
        .position(|(a, b)| a != b)
    {
        Some(count) => count,
        None => one.len().min(other.len()),
    }
}

/// Whether a word may end, or begin, between two parts of a text.
fn parts_words(front: &[u8], behind: &[u8]) -> bool {
    match (front.last(), behind.first()) {
        (Some(before), Some(after)) => before.is_ascii_whitespace() || after.is_ascii_whitespace(),
        _ => true,
    }
}

/// Whether no word is cut behind so many bytes.
fn is_between(text: &[u8], count: usize) -> bool {
    let (front, behind) = text.split_at(count.min(text.len()));
    parts_words(front, behind)
}

/// How many bytes of what two texts have alike in front are whole words in both.
fn words_in_front(one: &[u8], other: &[u8]) -> usize {
    let alike = alike_in_front(one, other);
    if is_between(one, alike) && is_between(other, alike) {
        return alike;
    }
    let front = one.split_at(alike.min(one.len())).0;
    match front.iter().rposition(|byte| byte.is_ascii_whitespace()) {
        Some(place) => place.saturating_add(1),
        None => 0,
    }
}

/// How many bytes of what two texts have alike behind are whole words in both.
fn words_behind(one: &[u8], other: &[u8]) -> usize {
    let alike = alike_behind(one, other);
    let first = one.len().saturating_sub(alike);
    if is_between(one, first) && is_between(other, other.len().saturating_sub(alike)) {
        return alike;
    }
    let behind = one.split_at(first).1;
    match behind.iter().position(|byte| byte.is_ascii_whitespace()) {
        Some(place) => alike.saturating_sub(place),
        None => 0,
    }
}

/// Writes words between two marks, if there are any.
fn write_marked<W: Write>(out: &mut W, marks: (&[u8], &[u8]), words: &[u8]) -> io::Result<()> {
    if words.is_empty() {
        return Ok(());
    }
    out.write_all(marks.0)?;
    out.write_all(words)?;
    out.write_all(marks.1)
}

/// Writes both texts as one, and a line break behind it where it has none: what was kept alone stands in `[-` and `-]`, what is said
/// alone in `{+` and `+}`.
pub fn write_difference<W: Write>(out: &mut W, kept: &[u8], said: &[u8]) -> io::Result<()> {
    let (front, kept) = kept.split_at(words_in_front(kept, said).min(kept.len()));
    let said = said.split_at(front.len().min(said.len())).1;
    let (gone, behind) = kept.split_at(kept.len().saturating_sub(words_behind(kept, said)));
    let come = said.split_at(said.len().saturating_sub(behind.len())).0;
    out.write_all(front)?;
    write_marked(out, (b"[-", b"-]"), gone)?;
    write_marked(out, (b"{+", b"+}"), come)?;
    out.write_all(behind)?;
    if behind.ends_with(b"\n") {
        return Ok(());
    }
    out.write_all(b"\n")
}
