//! How the instructions of a code go on, and the loops that are open at a place of it.

/// How an instruction goes on. Ways lead to places of the same code, counted in bytes.
#[derive(Clone, Copy)]
pub enum Way {
    /// To what stands behind.
    Straight,
    /// Behind, or to a place further on.
    Branch(u16),
    /// To a place.
    Leap(u16),
    /// Behind, where a loop is open.
    Opens,
    /// Behind with a loop's next turn, or to its exit.
    Turns(u16),
    /// Nowhere.
    Ends,
}

/// An open loop: the place of its next turn, and of its exit.
#[derive(Clone, Copy, Default)]
pub struct OpenLoop {
    pub head: u16,
    pub exit: u16,
}
