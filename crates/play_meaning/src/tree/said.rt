//! Texts with substitutions (*Writing with Inform*, chapter 5).
use crate::naming::Naming;
use crate::tree::condition::Condition;
use crate::tree::number::Number;
use crate::tree::object::{Description, Referent};
use world_meaning::TextBytes;

/// What a text says one behind the other.
#[derive(Debug, Drop)]
pub enum Piece {
    Bytes(TextBytes),
    /// A number in digits.
    Figure(Number),
    Name(Naming, Referent),
    /// The names of the objects that a description means.
    Listing(Naming, Description),
    DescriptionOf(Referent),
    /// The name of the object's value of a kind of value.
    ValueName(u8, Referent),
}

/// A piece, or those of `[if CONDITION]..[otherwise]..[end if]`, which has none inside it.
#[derive(Debug, Drop)]
pub enum Said {
    Plain(Piece),
    If(Condition, Vec<Piece>, Vec<Piece>),
}

/// A text: what it says, in order.
#[derive(Debug, Drop)]
pub struct Text {
    pub parts: Vec<Said>,
}
