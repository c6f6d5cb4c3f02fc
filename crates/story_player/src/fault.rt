//! Why no session begins, and why a run breaks off.
ghost use Rattle.std.specs.Prelude.{◌≡◌, Some};
ghost use Rattle.story_player.specs.FaultTexts.{run_text, start_text};

use std::{error, fmt};

/// Why no session begins: rules are missing from the table of stored ones, or memory lacked.
#[derive(Clone, Copy, Debug, Drop, PartialEq, Eq)]
pub enum StartFault {
    /// A stored rule is missing.
    IncompleteHosts,
    /// Memory was refused.
    Memory,
}

impl StartFault {
    /// The code and its name, as in `S1 IncompleteHosts`.
    pub fn text(self) -> &'static str
        ensures { result.now ≡ start_text self }
    {
        match self {
            StartFault::IncompleteHosts => "S1 IncompleteHosts",
            StartFault::Memory => "S2 Memory",
        }
    }
}

impl fmt::Display for StartFault {
    ghost output = { λ fault. Some (start_text fault) };

    fn fmt<W: fmt::Write>(&self, f: &mut fmt::Formatter<W>) -> fmt::Result {
        f.write_str(self.text())
    }
}

impl error::Error for StartFault {}

/// Why playing breaks off.
#[derive(Clone, Copy, Debug, Drop, PartialEq, Eq)]
pub enum RunFault {
    /// A read failed.
    Read,
    /// A write failed, or took no byte.
    Write,
    /// The commands have more bytes than are read.
    InputTooLong,
}

impl RunFault {
    /// The code and its name, as in `V1 Read`.
    pub fn text(self) -> &'static str
        ensures { result.now ≡ run_text self }
    {
        match self {
            RunFault::Read => "V1 Read",
            RunFault::Write => "V2 Write",
            RunFault::InputTooLong => "V3 InputTooLong",
        }
    }
}

impl fmt::Display for RunFault {
    ghost output = { λ fault. Some (run_text fault) };

    fn fmt<W: fmt::Write>(&self, f: &mut fmt::Formatter<W>) -> fmt::Result {
        f.write_str(self.text())
    }
}

impl error::Error for RunFault {}
