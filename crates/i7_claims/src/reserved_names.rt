//! Names that mean something before any sentence, besides kinds, properties and objects.

/// The words that stand for an object or a number.
pub const RESERVED: [&[u8]; 6] = [
    b"noun",
    b"second noun",
    b"location",
    b"nothing",
    b"something",
    b"turn count",
];

/// The built-in rulebooks and `player`: beside the reserved words, the names that no sentence gives a rulebook.
pub const BOOKS: [&[u8]; 5] = [b"before", b"instead", b"after", b"every turn", b"player"];
