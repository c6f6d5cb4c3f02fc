//! The regular plurals of names.
ghost use Rattle.std.specs.Prelude.{◌≡◌, ◌++◌, IfOk, option_copied};
ghost use Rattle.i7_sentences.specs.Plurals.{ends_in, front_of, is_consonant, is_consonant_in, plural_of, takes_es, takes_ies};

use std::alloc::{AllocError, Global};

/// Words without so many of their last bytes.
pub fn front_of(count: usize, words: &[u8]) -> &[u8]
    ensures { result.now ≡ front_of count words.now }
{
    let (front, _) = words.split_at(words.len().saturating_sub(count));
    front
}

fn ends_in(end: &[u8], words: &[u8]) -> bool
    ensures { result ≡ ends_in end.now words.now }
{
    if words.len() < end.len() {
        return false;
    }
    let (_, last) = words.split_at(words.len() - end.len());
    last == end
}

fn is_consonant(byte: u8) -> bool
    ensures { result ≡ is_consonant byte }
{
    byte >= b'a' && byte <= b'z' && !matches!(byte, b'a' | b'e' | b'i' | b'o' | b'u')
}

fn is_consonant_in(byte: Option<&u8>) -> bool
    ensures { result ≡ is_consonant_in (option_copied byte.entry) }
{
    match byte {
        None => false,
        Some(byte) => is_consonant(*byte),
    }
}

fn takes_es(name: &[u8]) -> bool
    ensures { result ≡ takes_es name.now }
{
    ends_in(b"s", name)
        || ends_in(b"x", name)
        || ends_in(b"z", name)
        || ends_in(b"ch", name)
        || ends_in(b"sh", name)
}

/// Whether a name ends in a consonant and `y`.
fn takes_ies(name: &[u8]) -> bool
    ensures { result ≡ takes_ies name.now }
{
    let front = front_of(1, name);
    ends_in(b"y", name) && is_consonant_in(front.get(front.len().saturating_sub(1)))
}

/// Words with another end.
pub fn with_end(alloc: Global, front: &[u8], end: &[u8]) -> Result<Vec<u8>, AllocError>
    ensures { IfOk result (λ words. words.items ≡ front.now ++ end.now) }
{
    let mut words = Vec::from_slice(alloc, front)?;
    words.extend_from_slice(end)?;
    Ok(words)
}

/// The regular plural of a name in small letters: of `box` `boxes`, of `city` `cities`, of `colour` `colours`.
pub fn plural_of(alloc: Global, name: &[u8]) -> Result<Vec<u8>, AllocError>
    ensures { IfOk result (λ plural. plural.items ≡ plural_of name.now) }
{
    if takes_es(name) {
        with_end(alloc, name, b"es")
    } else if takes_ies(name) {
        with_end(alloc, front_of(1, name), b"ies")
    } else {
        with_end(alloc, name, b"s")
    }
}
