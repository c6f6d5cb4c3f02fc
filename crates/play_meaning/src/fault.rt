//! Why a change of the world is refused.
ghost use Rattle.std.specs.Prelude.{◌≡◌, Some};
ghost use Rattle.play_meaning.specs.FaultTexts.{world_text};

use std::error::Error;
use std::fmt;

/// What a call of `GroundMut` refuses.
#[derive(Clone, Copy, Debug, Drop, PartialEq, Eq)]
pub enum WorldFault {
    /// The kinds don't allow it, the number isn't there, or a thing would come to stand in itself.
    Misplaced,
    /// Memory for taking the change back was refused.
    Memory,
}

impl WorldFault {
    /// What is wrong, in words.
    pub fn text(self) -> &'static str
        ensures { result.now ≡ world_text self }
    {
        match self {
            WorldFault::Misplaced => "that can't be so",
            WorldFault::Memory => "out of memory",
        }
    }
}

impl fmt::Display for WorldFault {
    ghost output = { λ fault. Some (world_text fault) };

    fn fmt<W: fmt::Write>(&self, f: &mut fmt::Formatter<W>) -> fmt::Result {
        f.write_str(self.text())
    }
}

impl Error for WorldFault {}
