//! The numbers of the rulebooks that every story has (the Standard Rules); behind them stand two for each scene, then the author's.

/// The rulebook before: the rules in front of an action's own.
pub const BEFORE: u16 = 0;

/// The rulebook instead: the rules in an action's place.
pub const INSTEAD: u16 = 1;

/// The rulebook check: whether an action can be done.
pub const CHECK: u16 = 2;

/// The rulebook carry out: what an action does.
pub const CARRY_OUT: u16 = 3;

/// The rulebook after: what follows an action, in place of its report.
pub const AFTER: u16 = 4;

/// The rulebook report: what is said of an action.
pub const REPORT: u16 = 5;

/// The rulebook every turn.
pub const EVERY_TURN: u16 = 6;

/// The rulebook when play begins.
pub const PLAY_BEGINS: u16 = 7;

/// The rulebook of when the first scene begins; that of each further scene has the number behind the next.
pub const SCENE_BEGINS: u16 = 8;

/// The rulebook of when the first scene ends.
pub const SCENE_ENDS: u16 = 9;
