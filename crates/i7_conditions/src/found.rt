//! What the words of a phrase mean, if they mean something.

/// What words mean.
#[derive(Debug, Drop)]
pub enum Found<T> {
    Read(T),
    /// They mean something, but with more of it than the language allows (C12).
    TooMany,
    /// The names allow no reading of them (C7).
    Unread,
}
