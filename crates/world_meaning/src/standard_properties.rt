//! The numbers of the built-in either-or properties, by which their table lists them.

/// The property of doors and containers that are open, and not closed.
pub const OPEN: u8 = 0;

/// The property of what can be opened and closed.
pub const OPENABLE: u8 = 1;

/// The property of containers that one sees into.
pub const TRANSPARENT: u8 = 2;

/// The property of things that give light.
pub const LIT: u8 = 3;

/// The property of rooms that have light of their own.
pub const LIGHTED: u8 = 4;

/// The property of things that are part of what their room looks like.
pub const SCENERY: u8 = 5;

/// The property of things that stay where they are, and aren't portable.
pub const FIXED_IN_PLACE: u8 = 6;

/// The property of what can be worn.
pub const WEARABLE: u8 = 7;

/// The property of things that are told of where what is seen is listed.
pub const DESCRIBED: u8 = 8;

/// The property of devices that are switched on, and not off.
pub const SWITCHED_ON: u8 = 9;

/// The property of rooms in which the player has looked round.
pub const VISITED: u8 = 10;
