//! The lines of a rule's body as they stand one below the other: what each says, and how deep it stands.
use play_meaning::tree::{Condition, Description, Simple};

/// A line of a rule's body.
#[derive(Drop)]
pub struct Line {
    /// How many lines this one belongs to: what stands behind `if`, `otherwise` or `repeat` is one deeper than that.
    pub depth: usize,
    pub step: Step,
}

/// What a line says.
#[derive(Debug, Drop)]
pub enum Step {
    Does(Simple),
    /// The phrase is done, and then the rule fails.
    Instead(Simple),
    If(Condition),
    OtherwiseIf(Condition),
    Otherwise,
    Repeat(Description),
}
