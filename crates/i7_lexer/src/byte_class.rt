//! The classes of a source's bytes.
ghost use Rattle.std.specs.Prelude.{◌≡◌};
ghost use Rattle.i7_lexer.specs.Bytes.{is_letter, is_blank, class_of};

/// What a byte can begin outside texts and comments.
#[derive(Clone, Copy, PartialEq, Eq)]
pub(crate) enum ByteClass {
    /// A word.
    Letter,
    /// White space.
    Blank,
    /// A text.
    Quote,
    /// A comment.
    Bracket,
    /// It is a token of its own.
    Other,
}

/// Whether a byte is of a word: an ASCII letter or digit, an apostrophe, a hyphen, or a byte of a
/// character past ASCII.
#[tactic(auto, unfolding(crate::specs::Bytes::is_letter))]
pub fn is_letter(byte: u8) -> bool
    ensures { result ≡ is_letter byte }
{
    byte.is_ascii_alphanumeric() || byte == b'\'' || byte == b'-' || byte >= 0x80
}

/// Whether a byte is white space: a space, a tab or a line feed.
#[tactic(auto, unfolding(crate::specs::Bytes::is_blank))]
pub(crate) fn is_blank(byte: u8) -> bool
    ensures { result ≡ is_blank byte }
{
    byte == b' ' || byte == b'\t' || byte == b'\n'
}

/// The byte's class.
#[tactic(auto, unfolding(crate::specs::Bytes::class_of))]
pub(crate) fn class_of(byte: u8) -> ByteClass
    ensures { result ≡ class_of byte }
{
    if is_letter(byte) {
        ByteClass::Letter
    } else if is_blank(byte) {
        ByteClass::Blank
    } else if byte == b'"' {
        ByteClass::Quote
    } else if byte == b'[' {
        ByteClass::Bracket
    } else {
        ByteClass::Other
    }
}
