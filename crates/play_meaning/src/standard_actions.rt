//! The numbers of the actions that every story has (the Standard Rules).

/// Looking round.
pub const LOOKING: u8 = 0;

/// Examining a thing.
pub const EXAMINING: u8 = 1;

/// Taking a thing.
pub const TAKING: u8 = 2;

/// Dropping a thing.
pub const DROPPING: u8 = 3;

/// Putting a thing on another.
pub const PUTTING_ON: u8 = 4;

/// Inserting a thing into another.
pub const INSERTING: u8 = 5;

/// Opening a thing.
pub const OPENING: u8 = 6;

/// Closing a thing.
pub const CLOSING: u8 = 7;

/// Going in a direction.
pub const GOING: u8 = 8;

/// Putting a thing on oneself.
pub const WEARING: u8 = 9;

/// Taking a worn thing off.
pub const TAKING_OFF: u8 = 10;

/// Telling what is held.
pub const TAKING_INVENTORY: u8 = 11;

/// Letting a turn pass.
pub const WAITING: u8 = 12;

/// Jumping on the spot.
pub const JUMPING: u8 = 13;

/// Switching a device on.
pub const SWITCHING_ON: u8 = 14;

/// Switching a device off.
pub const SWITCHING_OFF: u8 = 15;
