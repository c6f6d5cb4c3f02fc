//! Objects, and descriptions of them (*Writing with Inform*, chapters 4 and 6).
use std::boxed::Box;
use world_meaning::{KindNo, Listed, ObjNo, Rel};

/// Which object is meant.
#[derive(Debug, Drop)]
pub enum Referent {
    The(ObjNo),
    /// `the noun`
    Noun,
    /// `the second noun`
    SecondNoun,
    /// `the location`
    Location,
    Nothing,
    /// The object of an open `repeat`, the outermost being number 0.
    Turning(u8),
    /// `the room DIRECTION from ROOM`
    RoomFrom(Box<Referent>, Box<Referent>),
    /// `the door DIRECTION from ROOM`
    DoorFrom(Box<Referent>, Box<Referent>),
}

/// An either-or property by its first name or its second, as `open` and `closed`.
#[derive(Clone, Copy, Debug)]
pub enum Side {
    First,
    Second,
}

/// What an adjective says.
#[derive(Clone, Copy, Debug)]
pub enum Quality {
    /// An either-or property by its number.
    Is(u8, Side),
    /// A value of a kind of value, by the numbers of the kind and of the value.
    Valued(u8, u8),
    Visible,
    Touchable,
}

/// An adjective, perhaps behind `not`.
#[derive(Clone, Copy, Debug)]
pub struct Adjective {
    pub quality: Quality,
    pub denied: bool,
}

/// How, and by what, something is held.
#[derive(Debug, Drop)]
pub struct Held {
    pub relation: Rel,
    pub holder: Referent,
}

/// What objects are, and where.
#[derive(Debug, Drop)]
pub struct Description {
    pub adjectives: Listed<Adjective>,
    pub kind: Option<KindNo>,
    pub held: Option<Held>,
}
