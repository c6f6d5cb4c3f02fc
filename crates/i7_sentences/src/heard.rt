//! What is heard of a part of a source.
use crate::Assertion;

/// What a part of a source says, or the line at which it is refused.
#[derive(Drop)]
pub enum Heard {
    Says(Assertion),
    /// It isn't understood there (C5).
    Unread(u32),
    /// A name there holds a reserved word (C6).
    Reserved(u32),
}

/// What a part says, and the lowest line of a stretch of it that holds a literal out of range (C15).
#[derive(Drop)]
pub struct HeardPart {
    pub heard: Heard,
    pub bad_literal: Option<u32>,
}
