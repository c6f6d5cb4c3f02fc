//! What words ask, if they ask something.

/// What words ask.
#[derive(Drop)]
pub enum Asked<T> {
    Read(T),
    /// They ask something, but in a place that is no room, or for a value of a kind of value (C8).
    WrongKind,
    /// They ask something, but with more adjectives than the language allows (C12).
    TooMany,
    /// The names allow no reading of them (C7).
    Unread,
}
