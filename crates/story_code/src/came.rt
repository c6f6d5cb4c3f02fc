//! What an instruction that reads comes to.

/// What an instruction that reads comes to.
#[derive(Clone, Copy)]
pub enum Came {
    /// The run goes on.
    On,
    /// The code ends.
    Left,
    /// A test answers.
    Answered(bool),
}
