//! Why bytes are no story.
ghost use Rattle.std.specs.Prelude.{◌≡◌, Some};
ghost use Rattle.story_format.specs.FaultTexts.{load_text};
ghost use Rattle.story_format.specs.declared.fault.LoadFault.TheVariants.{Memory};

use std::alloc::{AllocError, AllocFailed};
use std::error::Error;
use std::fmt;

/// What is wrong with bytes that should be a story. The first that applies is given, in this order;
/// `Memory` may come wherever a growth is refused.
#[derive(Clone, Copy, Debug, Drop, PartialEq, Eq)]
pub enum LoadFault {
    /// The bytes don't begin with `I7ST`.
    BadMagic,
    /// The version is neither 1 nor 2.
    BadVersion,
    /// The counts tell more than the bytes hold.
    Truncated,
    /// Bytes stand behind the last table.
    TooLong,
    /// A table says what no story says, or the version isn't that of the tables.
    BadTable,
    /// A code isn't sound, or isn't named exactly once, or a string that only codes name is out of order, or
    /// a string is named by none.
    BadCode,
    /// A book's rules are out of order; not yet told, since a book that lists a rule is a bad table so far.
    BadOrder,
    /// Memory was refused.
    Memory,
}

impl LoadFault {
    /// The code and its name, as in `L3 Truncated`.
    pub fn text(self) -> &'static str
        ensures { result.now ≡ load_text self }
    {
        match self {
            LoadFault::BadMagic => "L1 BadMagic",
            LoadFault::BadVersion => "L2 BadVersion",
            LoadFault::Truncated => "L3 Truncated",
            LoadFault::TooLong => "L4 TooLong",
            LoadFault::BadTable => "L5 BadTable",
            LoadFault::BadCode => "L6 BadCode",
            LoadFault::BadOrder => "L7 BadOrder",
            LoadFault::Memory => "L8 Memory",
        }
    }
}

impl fmt::Display for LoadFault {
    ghost output = { λ fault. Some (load_text fault) };

    fn fmt<W: fmt::Write>(&self, f: &mut fmt::Formatter<W>) -> fmt::Result {
        f.write_str(self.text())
    }
}

impl Error for LoadFault {}

impl From<AllocError> for LoadFault {
    ghost from_gives = { λ _ fault. fault ≡ Memory };

    fn from(_error: AllocError) -> LoadFault {
        LoadFault::Memory
    }
}

impl<T: Drop> From<AllocFailed<T>> for LoadFault {
    ghost from_gives = { λ _ fault. fault ≡ Memory };

    fn from(_error: AllocFailed<T>) -> LoadFault {
        LoadFault::Memory
    }
}
