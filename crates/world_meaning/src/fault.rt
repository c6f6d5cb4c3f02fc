//! Why a source is refused: a code and a line.
ghost use Rattle.std.specs.Prelude.{◌≡◌, Some};
ghost use Rattle.world_meaning.specs.Faults.{code_text, fault_text};

use std::error::Error;
use std::fmt;

/// What the compiler finds wrong with a source. Calls refuse in the order of the pipeline, and the
/// lowest line is given.
#[derive(Clone, Copy, Debug, Drop, PartialEq, Eq)]
pub enum FaultCode {
    TooLong,
    NotText,
    Unclosed,
    BadIndent,
    NotUnderstood,
    ReservedWord,
    UnknownName,
    WrongKind,
    Twice,
    TwoPlaces,
    Cycle,
    TooMany,
    NoRoom,
    Memory,
    NumberOutOfRange,
    NoValues,
}

impl FaultCode {
    /// The code and its name, as in `C5 NotUnderstood`.
    pub fn text(self) -> &'static str
        ensures { result.now ≡ code_text self }
    {
        match self {
            FaultCode::TooLong => "C1 TooLong",
            FaultCode::NotText => "C2 NotText",
            FaultCode::Unclosed => "C3 Unclosed",
            FaultCode::BadIndent => "C4 BadIndent",
            FaultCode::NotUnderstood => "C5 NotUnderstood",
            FaultCode::ReservedWord => "C6 ReservedWord",
            FaultCode::UnknownName => "C7 UnknownName",
            FaultCode::WrongKind => "C8 WrongKind",
            FaultCode::Twice => "C9 Twice",
            FaultCode::TwoPlaces => "C10 TwoPlaces",
            FaultCode::Cycle => "C11 Cycle",
            FaultCode::TooMany => "C12 TooMany",
            FaultCode::NoRoom => "C13 NoRoom",
            FaultCode::Memory => "C14 Memory",
            FaultCode::NumberOutOfRange => "C15 NumberOutOfRange",
            FaultCode::NoValues => "C16 NoValues",
        }
    }
}

impl fmt::Display for FaultCode {
    ghost output = { λ code. Some (code_text code) };

    fn fmt<W: fmt::Write>(&self, f: &mut fmt::Formatter<W>) -> fmt::Result {
        f.write_str(self.text())
    }
}

impl Error for FaultCode {}

/// A refusal of a source: what is wrong, and the line, counted from 1, on which it is.
#[derive(Clone, Copy, Debug, Drop, PartialEq, Eq)]
pub struct Fault {
    pub code: FaultCode,
    pub line: u32,
}

impl Fault {
    /// Memory was refused: of such a refusal the line says nothing, and is 1.
    pub const OUT_OF_MEMORY: Fault = Fault {
        code: FaultCode::Memory,
        line: 1,
    };
}

impl fmt::Display for Fault {
    ghost output = { λ fault. Some (fault_text fault) };

    fn fmt<W: fmt::Write>(&self, f: &mut fmt::Formatter<W>) -> fmt::Result {
        let Fault { code, line } = *self;
        write!(f, "{line}: {code}")
    }
}

impl Error for Fault {}
