//! Where a room's twelve directions lead.
use crate::ObjNo;

/// What lies in one direction: the room beyond, and the door on the way.
#[derive(Clone, Copy, PartialEq, Eq)]
pub struct Way {
    pub room: Option<ObjNo>,
    pub door: Option<ObjNo>,
}

impl Way {
    /// No way: nothing lies beyond.
    pub const NONE: Way = Way {
        room: None,
        door: None,
    };
}

/// A room's ways, north first, in the directions' order. An object that is no room has none.
#[derive(Clone, Copy, PartialEq, Eq)]
pub struct Exits {
    pub ways: [Way; 12],
}
