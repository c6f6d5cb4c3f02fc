//! The work of a command or of the opening.
ghost use Rattle.std.specs.Prelude.{◌≡◌, ◌≤◌, ◌<◌, ◌+◌, MatchResult};
ghost use Rattle.play_meaning.specs.Progress.{most_work};
ghost use Rattle.world_meaning.specs.declared.session.Abandon.TheVariants.{TooMuchWork};

use std::marker::Model;
use story_code::MOST_WORK;
use world_meaning::Abandon;

/// Work that was done, in units: the body of a rule that begins is one, and so is a turn of a repeat. There are ten thousand
/// at the most.
#[derive(Drop)]
pub struct Work {
    units: u32,
}

impl Model for Work {
    ghost use Rattle.std.specs.Prelude.{ℕ, ◌≤◌};

    ghost Value = { ℕ };

    ghost view = { λ w. w.units };

    ghost invariant = { λ w. w.units ≤ 10000 };
}

impl Work {
    /// No work.
    pub fn none() -> Work
        ensures { result ≡ 0 }
    {
        Work { units: 0 }
    }

    /// How many units there are.
    pub fn units(&self) -> u32
        ensures units { result ≡ self.now }
        ensures most { self.now ≤ most_work }
    {
        self.units
    }

    /// A unit more, unless that is too much.
    pub fn spend(&mut self) -> Result<(), Abandon>
        ensures spent { MatchResult result (λ done. (self.old < most_work) × (self.new ≡ self.old + 1)) (λ reason. (most_work ≤ self.old) × (reason ≡ TooMuchWork)) }
    {
        if self.units >= MOST_WORK {
            return Err(Abandon::TooMuchWork);
        }
        self.units += 1;
        Ok(())
    }

    /// So much work is done.
    pub fn set(&mut self, units: u32)
        requires { units ≤ most_work }
        ensures { self.new ≡ units }
    {
        self.units = units;
    }
}
