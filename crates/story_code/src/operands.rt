//! The operands of a run.
ghost use Rattle.std.specs.Prelude.{◌≡◌, ◌<◌, [], ◌∷◌, length};

use arrayvec::ArrayVec;
use std::marker::Model;

/// The most operands that may stand.
pub(crate) const MOST_OPERANDS: usize = 64;

/// The operands, the last pushed first.
#[derive(Drop)]
pub struct Operands {
    kept: ArrayVec<i32, MOST_OPERANDS>,
}

impl Model for Operands {
    ghost use Rattle.std.specs.Prelude.{List, ℤ, reverse};

    ghost Value = { List ℤ };

    ghost view = { λ o. reverse o.kept.items };
}

#[tactic(auto, using(crate::proofs::Stacks::stack_steps))]
impl Operands {
    /// No operand.
    pub(crate) fn new() -> Operands
        ensures { result ≡ [] }
    {
        Operands {
            kept: ArrayVec::new(),
        }
    }

    /// One more.
    pub(crate) fn push(&mut self, operand: i32)
        requires { length self.old < 64 }
        ensures { self.new ≡ operand ∷ self.old }
    {
        self.kept.push(operand);
    }

    /// Takes the last pushed; 0 where there is none.
    pub(crate) fn pop(&mut self) -> i32
        requires { 0 < length self.old }
        ensures { self.old ≡ result ∷ self.new }
    {
        self.kept.pop().unwrap_or(0)
    }
}
