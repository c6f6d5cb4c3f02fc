//! The objects of a run's open loops.
ghost use Rattle.std.specs.Prelude.{◌≡◌, ◌++◌, ◌<◌, ◌≤◌, [], ◌∷◌, None, Some, length, slice_index_or, take};

use arrayvec::ArrayVec;
use std::marker::Model;
use world_meaning::ObjNo;

/// The most loops that may be open: eight, and the one of a test.
pub(crate) const MOST_LOOPS: usize = 9;

/// The objects of the open loops, the outermost first; none before a loop's first turn.
#[derive(Drop)]
pub struct Turning {
    kept: ArrayVec<Option<ObjNo>, MOST_LOOPS>,
}

impl Model for Turning {
    ghost use Rattle.std.specs.Prelude.{List, Option, ℕ};

    ghost Value = { List (Option ℕ) };

    ghost view = { λ t. t.kept.items };
}

impl Turning {
    /// No loop.
    pub(crate) fn new() -> Turning
        ensures { result ≡ [] }
    {
        Turning {
            kept: ArrayVec::new(),
        }
    }

    /// How many there are.
    pub(crate) fn len(&self) -> usize
        ensures count { result ≡ length self.now }
        ensures few { result ≤ 9 }
    {
        self.kept.len()
    }

    /// The object of a loop.
    pub(crate) fn at(&self, number: u8) -> Option<ObjNo>
        ensures { result ≡ slice_index_or self.now number None }
    {
        match self.kept.get(usize::from(number)) {
            Some(object) => *object,
            None => None,
        }
    }

    /// One more.
    pub(crate) fn push(&mut self, object: Option<ObjNo>)
        requires { length self.old < 9 }
        ensures { self.new ≡ self.old ++ object ∷ [] }
    {
        self.kept.push(object);
    }

    /// The same.
    pub(crate) fn copied(&self) -> Turning
        ensures { result ≡ self.now }
    {
        let mut copy = Turning::new();
        for object in self.kept.as_slice() {
            copy.push(*object);
        }
        copy
    }

    /// These and one more.
    pub(crate) fn with(&self, object: ObjNo) -> Turning
        requires { length self.now < 9 }
        ensures { result ≡ self.now ++ Some object ∷ [] }
    {
        let mut more = self.copied();
        more.push(Some(object));
        more
    }

    /// The outermost ones alone, so many of them.
    pub(crate) fn keep(&mut self, count: u8)
        ensures { self.new ≡ take count self.old }
    {
        self.kept.truncate(usize::from(count));
    }
}
