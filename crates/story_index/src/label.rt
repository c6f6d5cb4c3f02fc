//! Names of rooms in two lines that fit a room's box.

/// The most letters of a line.
const MOST: usize = 17;

/// Whether a byte begins a letter, as UTF-8 has them.
fn begins_letter(byte: u8) -> bool {
    !(0x80..0xC0).contains(&byte)
}

/// The bytes of so many letters at most in front of a text.
fn front_of(text: &[u8], most: usize) -> usize {
    let mut letters = 0usize;
    for place in 0..text.len() {
        if let Some(byte) = text.get(place)
            && begins_letter(*byte)
        {
            if letters == most {
                return place;
            }
            letters = letters.saturating_add(1);
        }
    }
    text.len()
}

/// The bytes in front of the last blank among so many.
fn to_blank(text: &[u8], bytes: usize) -> usize {
    let mut last = 0;
    for place in 0..bytes {
        if text.get(place) == Some(&b' ') {
            last = place;
        }
    }
    last
}

/// The bytes of the first line: the whole text, or as many words as fit, or as many letters.
fn first_line(text: &[u8]) -> usize {
    let fitting = front_of(text, MOST);
    if fitting == text.len() || text.get(fitting) == Some(&b' ') {
        return fitting;
    }
    match to_blank(text, fitting) {
        0 => fitting,
        blank => blank,
    }
}

/// A name in lines.
#[derive(Clone, Copy)]
pub struct Lines<'a> {
    pub first: &'a [u8],
    pub second: &'a [u8],
    /// Whether more stands behind.
    pub is_cut: bool,
}

/// A text from a place on.
fn behind(text: &[u8], place: usize) -> &[u8] {
    match text.split_at_checked(place) {
        None => text,
        Some((_, behind)) => behind,
    }
}

/// A text up to a place.
fn in_front(text: &[u8], place: usize) -> &[u8] {
    match text.split_at_checked(place) {
        None => text,
        Some((front, _)) => front,
    }
}

/// A text without the blank in front of it.
fn trimmed(text: &[u8]) -> &[u8] {
    match text {
        [b' ', rest @ ..] => rest,
        _ => text,
    }
}

/// The lines of a name.
pub fn lines_of(name: &[u8]) -> Lines<'_> {
    let end = first_line(name);
    let rest = trimmed(behind(name, end));
    let fitting = front_of(rest, MOST);
    Lines {
        first: in_front(name, end),
        second: in_front(rest, fitting),
        is_cut: fitting < rest.len(),
    }
}
