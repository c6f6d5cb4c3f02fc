//! What is known at a place of a code: the sorts of the operands, and the open loops.
ghost use Rattle.std.specs.Prelude.{◌≡◌, ◌<◌, ◌≤◌, [], ◌∷◌, None, Some, MatchOption, length, nat_lt, if◌then◌else◌};
ghost use Rattle.story_code.specs.Passes.{if_so, innermost, is_nil};

use crate::operands::MOST_OPERANDS;
use crate::turning::MOST_LOOPS;
use arrayvec::ArrayVec;
use play_meaning::{OpenLoop, Sort};
use std::marker::Model;

/// The sorts of the operands.
#[derive(Drop)]
pub struct Sorts {
    kept: ArrayVec<Sort, MOST_OPERANDS>,
}

impl Model for Sorts {
    ghost use Rattle.std.specs.Prelude.{List, reverse};
    ghost use Rattle.play_meaning.specs.declared.operand.Sort.{Sort};

    ghost Value = { List Sort };

    ghost view = { λ s. reverse s.kept.items };
}

/// The open loops.
#[derive(Drop)]
pub struct Loops {
    kept: ArrayVec<OpenLoop, MOST_LOOPS>,
}

impl Model for Loops {
    ghost use Rattle.std.specs.Prelude.{List, reverse};
    ghost use Rattle.play_meaning.specs.declared.way.OpenLoop.{OpenLoop};

    ghost Value = { List OpenLoop };

    ghost view = { λ s. reverse s.kept.items };
}

/// The operands, the last pushed first, and the open loops, the innermost first.
#[derive(Drop)]
pub struct Known {
    pub operands: Sorts,
    pub loops: Loops,
}

impl Model for Known {
    ghost use Rattle.play_meaning.specs.SoundCodes.{Label};

    ghost Value = { Label };

    ghost view = { λ k. record { operands = k.operands; loops = k.loops } };
}

#[tactic(auto, using(crate::proofs::Stacks::stack_steps))]
impl Sorts {
    /// No operand.
    pub fn new() -> Sorts
        ensures { result ≡ [] }
    {
        Sorts {
            kept: ArrayVec::new(),
        }
    }

    /// Whether there is none.
    pub fn is_empty(&self) -> bool
        ensures { result ≡ is_nil self.now }
    {
        self.kept.is_empty()
    }

    /// One more, if there is room.
    pub fn push(&mut self, sort: Sort) -> bool
        ensures { if_so result self.new ≡ (if nat_lt (length self.old) 64 then Some (sort ∷ self.old) else None) }
    {
        if self.kept.is_full() {
            false
        } else {
            self.kept.push(sort);
            true
        }
    }

    /// The last pushed.
    pub fn pop(&mut self) -> Option<Sort>
        ensures { MatchOption result (self.old ≡ []) (λ sort. self.old ≡ sort ∷ self.new) }
    {
        self.kept.pop()
    }

    /// None from here on.
    pub fn clear(&mut self)
        ensures { self.new ≡ [] }
    {
        self.kept.clear()
    }
}

#[tactic(auto, using(crate::proofs::Stacks::stack_steps))]
impl Loops {
    /// No loop.
    pub fn new() -> Loops
        ensures { result ≡ [] }
    {
        Loops {
            kept: ArrayVec::new(),
        }
    }

    /// Whether there is none.
    pub fn is_empty(&self) -> bool
        ensures { result ≡ is_nil self.now }
    {
        self.kept.is_empty()
    }

    /// How many there are.
    pub fn len(&self) -> usize
        ensures count { result ≡ length self.now }
        ensures few { result ≤ 9 }
    {
        self.kept.len()
    }

    /// One more.
    pub fn push(&mut self, opened: OpenLoop)
        requires { length self.old < 9 }
        ensures { self.new ≡ opened ∷ self.old }
    {
        self.kept.push(opened);
    }

    /// Takes the innermost out.
    pub fn pop(&mut self) -> Option<OpenLoop>
        ensures { MatchOption result (self.old ≡ []) (λ o. self.old ≡ o ∷ self.new) }
    {
        self.kept.pop()
    }

    /// The innermost.
    pub fn innermost(&self) -> Option<OpenLoop>
        ensures { result ≡ innermost self.now }
    {
        self.kept.last().copied()
    }
}

impl Known {
    /// No operand, no loop.
    pub fn new() -> Known
        ensures { result ≡ record { operands = []; loops = [] } }
    {
        Known {
            operands: Sorts::new(),
            loops: Loops::new(),
        }
    }
}
