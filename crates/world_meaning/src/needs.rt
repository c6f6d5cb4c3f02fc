//! What actions ask for (*Writing with Inform*, chapter 12).

/// What an action asks of a noun.
#[derive(Clone, Copy, PartialEq, Eq)]
pub enum Slot {
    /// The action has no such noun.
    Absent,
    /// It must be seen.
    Visible,
    /// It must be touched.
    Touched,
    /// It must be held by the player; it is taken first.
    Carried,
}

/// What an action asks for.
#[derive(Clone, Copy, PartialEq, Eq)]
pub struct Needs {
    pub noun: Slot,
    pub second: Slot,
    /// Whether it can't be done in darkness.
    pub light: bool,
    /// Whether it is about the game, and no part of the world's time.
    pub out_of_world: bool,
}
