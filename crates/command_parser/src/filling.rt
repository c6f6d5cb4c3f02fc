//! What the candidates of a slot come to, and those of all slots of an action.
use play_meaning::ActionNow;
use world_meaning::ObjNo;

/// What the candidates of a slot come to.
#[derive(Clone, Copy, PartialEq, Eq)]
pub enum Filling {
    /// There are none.
    Empty,
    /// They all go by the same words: this one, the first, is meant.
    Settled(ObjNo),
    /// It is to be asked which is meant.
    Open,
}

/// What the candidates of an action's slots come to.
#[derive(Clone, Copy)]
pub enum Outcome {
    /// This is done.
    Acts(ActionNow),
    /// A slot has none.
    NotSeen,
    /// It is to be asked which object a slot means.
    Asks,
}
