//! What the words of an object are made of: openings, and names.
use world_meaning::ObjNo;

/// An opening, or what a run of words without `from` names behind the openings in front of it.
#[derive(Clone, Copy)]
pub enum Mark {
    /// `the room DIRECTION from ROOM` begins.
    Room,
    /// `the door DIRECTION from ROOM` begins.
    Door,
    The(ObjNo),
    Noun,
    SecondNoun,
    Location,
    Nothing,
    /// The object of an open repeat, the outermost being number 0.
    Turning(u8),
    /// The run names nothing.
    Unknown,
}
