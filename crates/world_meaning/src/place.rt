//! Where an object is: its holder, and how it is held.
use crate::ObjNo;

/// How a holder holds a thing.
#[derive(Clone, Copy, Debug, PartialEq, Eq)]
pub enum Rel {
    In,
    On,
    Carried,
    Worn,
    Part,
}

/// A holder and the relation by which it holds.
#[derive(Clone, Copy, Debug, PartialEq, Eq)]
pub struct Place {
    pub relation: Rel,
    pub holder: ObjNo,
}
