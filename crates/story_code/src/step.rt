//! What a step of a body comes to.

use play_meaning::ActionNow;

/// What a step of a body comes to.
#[derive(Clone, Copy, Debug)]
pub enum Step {
    /// The run goes on.
    GoesOn,
    /// The body has come to its end.
    Done,
    /// The body ends, and its rule decides nothing.
    NoDecision,
    /// The body ends, and its rule succeeds.
    Success,
    /// The body ends, and its rule fails.
    Failure,
    /// The caller tries this action, and the run goes on behind it.
    Try(ActionNow),
    /// The caller follows the rulebook of this number, and the run goes on behind it.
    Follow(u16),
}
