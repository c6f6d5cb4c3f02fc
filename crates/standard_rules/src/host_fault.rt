//! Why a rule isn't taken into the table.
ghost use Rattle.std.specs.Prelude.{◌≡◌, Some};
ghost use Rattle.standard_rules.specs.FaultTexts.{host_text};

use std::{error, fmt};

/// What `HostTable::add` refuses.
#[derive(Clone, Copy, Debug, Drop, PartialEq, Eq)]
pub enum HostFault {
    /// The rule hasn't the next number.
    OutOfOrder,
    /// All sixty-one rules are there.
    Full,
    /// Memory was refused.
    Memory,
}

impl HostFault {
    /// The code and its name, as in `H1 OutOfOrder`.
    pub fn text(self) -> &'static str
        ensures { result.now ≡ host_text self }
    {
        match self {
            HostFault::OutOfOrder => "H1 OutOfOrder",
            HostFault::Full => "H2 Full",
            HostFault::Memory => "H3 Memory",
        }
    }
}

impl fmt::Display for HostFault {
    ghost output = { λ fault. Some (host_text fault) };

    fn fmt<W: fmt::Write>(&self, f: &mut fmt::Formatter<W>) -> fmt::Result {
        f.write_str(self.text())
    }
}

impl error::Error for HostFault {}
