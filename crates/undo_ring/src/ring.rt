//! A ring of what is kept: what comes first in goes first out, and what was kept last is taken back first.
ghost use Rattle.std.specs.Prelude.{◌≡◌, ◌≤◌, ◌-◌, ◌∷◌, [], IfOk, drop, length, option_copied, slice_get, take};

use circular_buffer::HeapCircularBuffer;
use std::alloc::{AllocError, Global};
use std::marker::Model;

/// The most that is kept.
const MOST_KEPT: usize = 8;

/// What is kept of the last turns, at most eight. Contracts see the list, the latest in front.
#[derive(Drop)]
pub struct Ring<T: Drop> {
    kept: HeapCircularBuffer<T>,
}

impl<T: Drop> Model for Ring<T> {
    ghost use Rattle.std.specs.Prelude.{◌≡◌, List};

    ghost Value = { List T };

    ghost view = { λ ring. ring.kept.items };

    ghost invariant = { λ ring. ring.kept.capacity ≡ 8 };
}

impl<T: Drop> Ring<T> {
    /// A ring with nothing in it, and room for eight.
    ///
    /// # Errors
    ///
    /// Want of memory alone.
    pub fn new(alloc: Global) -> Result<Ring<T>, AllocError>
        ensures { IfOk result (λ ring. ring ≡ []) }
    {
        let kept = HeapCircularBuffer::with_capacity(alloc, MOST_KEPT)?;
        Ok(Ring { kept })
    }

    /// Keeps one more, in front, and lets the oldest of nine go. Takes no memory.
    pub fn keep(&mut self, value: T)
        ensures { self.new ≡ take 8 (value ∷ self.old) }
    {
        self.kept.push_front(value);
    }

    /// Takes the latest back, if anything is kept.
    pub fn take_back(&mut self) -> Option<T>
        ensures value { result ≡ slice_get self.old 0 }
        ensures rest { self.new ≡ drop 1 self.old }
    {
        self.kept.pop_front()
    }

    /// How many are kept.
    pub fn len(&self) -> usize
        ensures len { result ≡ length self.now }
        ensures most { result ≤ 8 }
    {
        self.kept.len()
    }

    /// The oldest that is kept, if any is.
    pub fn oldest(&self) -> Option<&T>
        ensures { option_copied result ≡ slice_get self.now (length self.now - 1) }
    {
        self.kept.back()
    }
}
