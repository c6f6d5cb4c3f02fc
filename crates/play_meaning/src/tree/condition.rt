//! Conditions (*Writing with Inform*, 11.7 and 11.8).
use crate::tree::number::Number;
use crate::tree::object::{Adjective, Description, Referent};
use world_meaning::Rel;

/// What a condition asks that isn't joined of others.
#[derive(Debug, Drop)]
pub enum Basic {
    /// The object is so.
    IsSo(Referent, Adjective),
    /// The object is one of those that the description means.
    IsOne(Referent, Description),
    /// Both are one object.
    IsSame(Referent, Referent),
    /// The first is held by the second.
    IsHeld(Referent, Rel, Referent),
    /// The object is held by one of those that the description means.
    IsHeldByOne(Referent, Rel, Description),
    /// The first carries or wears the second.
    Has(Referent, Referent),
    /// The second stands in the first, at any depth.
    Encloses(Referent, Referent),
    HasDescription(Referent),
    Equals(Number, Number),
    IsLess(Number, Number),
    IsAtMost(Number, Number),
    /// The scene of this number happens.
    Happens(u8),
    InDarkness,
}

/// What is asked, perhaps by `not`.
#[derive(Debug, Drop)]
pub struct Clause {
    pub basic: Basic,
    pub denied: bool,
}

/// Clauses that are joined by `and`.
#[derive(Debug, Drop)]
pub struct Conjunction {
    pub first: Clause,
    pub rest: Vec<Clause>,
}

/// Conjunctions that are joined by `or`.
#[derive(Debug, Drop)]
pub struct Condition {
    pub first: Conjunction,
    pub rest: Vec<Conjunction>,
}
