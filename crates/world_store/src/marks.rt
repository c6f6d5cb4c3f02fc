//! Marks in the log of a world, to which it is turned back.
ghost use Rattle.std.specs.Prelude.{◌≡◌, ◌↔◌, IsTrue, ◌≤◌, ◌<◌, ◌-◌, ◌∷◌, ◌++◌, [], length};
ghost use Rattle.world_store.specs.StoryWorlds.{IsPastHalf, let_go, reverted};

use crate::World;
use std::marker::Model;

/// A place in the log of a world: so many changes were made before it.
#[derive(Clone, Copy, PartialEq, Eq)]
pub struct Mark(usize);

impl Model for Mark {
    ghost use Rattle.std.specs.Prelude.{ℕ};

    ghost Value = { ℕ };

    ghost view = { λ mark. mark.0 };

    ghost inverse = { λ n. record { 0 = n } };
}

impl Mark {
    /// Whether it is no later than another of the same world: whether it is in the log of a world whose present place that is.
    pub fn is_upto(self, other: Mark) -> bool
        ensures { IsTrue result ↔ self ≤ other }
    {
        self.0 <= other.0
    }

    /// Where it is once the changes in front of an earlier mark are let go of.
    pub fn behind(self, first: Mark) -> Mark
        ensures { result ≡ self - first }
    {
        Mark(self.0.saturating_sub(first.0))
    }

    /// Whether more changes stand in front of it than between it and a later mark.
    pub fn is_past_half(self, last: Mark) -> bool
        ensures { IsTrue result ↔ IsPastHalf self last }
    {
        self.0 > last.0.saturating_sub(self.0)
    }
}

impl World {
    /// The present place of the log. It takes no memory.
    pub fn mark(&self) -> Mark
        ensures { result ≡ length self.now.past }
    {
        Mark(self.log.len())
    }

    /// Takes back the last change.
    fn undo_last(&mut self)
        requires { 0 < length self.old.past }
        ensures tables { self.new.tables ≡ self.old.tables }
        ensures past { self.old.past ≡ self.new.past ++ self.new.world ∷ [] }
    {
        if let Some(was) = self.log.take_last() {
            self.state.undo(was);
        }
    }

    /// Takes back each change since a mark, the newest first. It takes no memory, and cannot fail.
    pub fn revert(&mut self, mark: Mark)
        requires { mark ≤ length self.old.past }
        ensures { self.new ≡ reverted mark self.old }
    {
        while self.log.len() > mark.0 {
            self.undo_last();
        }
    }

    /// Lets go of the changes in front of a mark, to which nothing is turned back any more; a later mark is then told by `Mark::behind`.
    /// It takes no memory, and as long as the log is.
    pub fn let_go(&mut self, mark: Mark)
        requires { mark ≤ length self.old.past }
        ensures { self.new ≡ let_go mark self.old }
    {
        self.log.drop_front(mark.0);
    }
}
