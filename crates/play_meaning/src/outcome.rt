//! Decisions of rules, and how a rule's body leaves off.

/// What a rule decides of an action (*Writing with Inform*, chapter 19).
#[derive(Clone, Copy, Debug)]
pub enum Outcome {
    Success,
    Failure,
}

/// How a phrase, or a body, leaves off.
#[derive(Clone, Copy, Debug)]
pub enum Flow {
    /// The next phrase follows.
    GoesOn,
    /// The body ends, and its rule decides nothing.
    NoDecision,
    /// The body ends, and its rule decides this.
    Decides(Outcome),
}
