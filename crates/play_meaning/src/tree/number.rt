//! Numbers (*Writing with Inform*, chapter 15).
use crate::tree::object::{Description, Referent};

/// A number that isn't joined of others.
#[derive(Debug, Drop)]
pub enum Term {
    Literal(i32),
    /// A variable by its number.
    Variable(u8),
    /// `the PROPERTY of OBJECT`, the property by its number.
    PropertyOf(u8, Referent),
    /// `the number of DESCRIPTION`
    CountOf(Description),
    TurnCount,
}

/// What joins two numbers.
#[derive(Clone, Copy, Debug, PartialEq, Eq)]
pub enum Operator {
    Plus,
    Minus,
    Times,
}

/// An operator and the number behind it.
#[derive(Debug, Drop)]
pub struct Joined {
    pub operator: Operator,
    pub term: Term,
}

/// A number, and those that are joined to it. Operators bind alike, and to the right: each takes all that stands behind it.
#[derive(Debug, Drop)]
pub struct Number {
    pub first: Term,
    pub rest: Vec<Joined>,
}
