//! Telling what went wrong: a line and a status.
ghost use Rattle.std.specs.Prelude.{◌≡◌, OnOk, Some};
ghost use Rattle.std.specs.Io.KnownBytes.{Appends};
ghost use Rattle.source_player.specs.FaultTexts.{line_of};
ghost use Rattle.source_player.specs.Statuses.{is_memory, plain_status, status_of};

use std::fmt;
use std::io::{self, Write};
use story_file::LoadFault;
use story_player::RunFault;
use world_meaning::{Fault, FaultCode};

/// What the program can't do, with the path of the file that it speaks of.
#[derive(Debug, Drop)]
pub enum ProgramFault<'a> {
    /// The program's words are faulty, or ask for help.
    Words(String),
    /// A file can't be read.
    CannotRead(&'a str),
    /// A file can't be written.
    CannotWrite(&'a str),
    /// A source is refused.
    Source(&'a str, Fault),
    /// A story is refused.
    Story(&'a str, LoadFault),
    /// Reading commands or writing the transcript failed.
    Stream(RunFault),
    /// Memory was refused.
    Memory,
}

impl ProgramFault<'_> {
    /// Whether memory was refused, wherever it was.
    fn is_memory(&self) -> bool
        ensures { result ≡ is_memory self.now }
    {
        match self {
            ProgramFault::Memory => true,
            ProgramFault::Source(_, fault) => fault.code == FaultCode::Memory,
            ProgramFault::Story(_, fault) => *fault == LoadFault::Memory,
            ProgramFault::Words(_)
            | ProgramFault::CannotRead(_)
            | ProgramFault::CannotWrite(_)
            | ProgramFault::Stream(_) => false,
        }
    }

    /// The status with which the program ends, where it isn't for want of memory.
    fn plain_status(&self) -> u8
        ensures { result ≡ plain_status self.now }
    {
        match self {
            ProgramFault::Source(..) => 1,
            ProgramFault::Story(..) => 2,
            ProgramFault::CannotRead(_) | ProgramFault::CannotWrite(_) | ProgramFault::Stream(_) =>
                3,
            ProgramFault::Memory => 4,
            ProgramFault::Words(_) => 5,
        }
    }
}

/// What is wrong, behind the path of the file or the program's name; the program's words as they are.
impl fmt::Display for ProgramFault<'_> {
    ghost use Rattle.source_player.specs.FaultTexts.{program_text};

    ghost output = { λ fault. Some (program_text fault) };

    fn fmt<W: fmt::Write>(&self, f: &mut fmt::Formatter<W>) -> fmt::Result {
        match self {
            ProgramFault::Words(text) => write!(f, "{text}"),
            ProgramFault::CannotRead(path) => write!(f, "{path}: cannot be read"),
            ProgramFault::CannotWrite(path) => write!(f, "{path}: cannot be written"),
            ProgramFault::Source(path, fault) => write!(f, "{path}:{fault}"),
            ProgramFault::Story(path, fault) => write!(f, "{path}: {fault}"),
            ProgramFault::Stream(fault) => write!(f, "i7story: {fault}"),
            ProgramFault::Memory => write!(f, "i7story: out of memory"),
        }
    }
}

/// Writes the fault's line, where the writer takes it: nothing where the transcript can't be written,
/// which the status alone tells.
fn tell<W: Write>(fault: &ProgramFault<'_>, writer: &mut W) -> io::Result<()>
    ensures { OnOk result (Appends (W.contents writer.old) (W.contents writer.new) (line_of fault.now)) }
{
    if fault.is_memory() {
        return writeln!(writer, "{}", ProgramFault::Memory);
    }
    match fault {
        ProgramFault::Stream(RunFault::Write) => Ok(()),
        ProgramFault::Words(text) => write!(writer, "{text}"),
        _ => writeln!(writer, "{fault}"),
    }
}

/// What came of telling a fault.
#[derive(Debug, Drop)]
pub struct Reported {
    /// The status with which the program ends: 1 a source that is refused, 2 a story that is refused, 3 a
    /// file or a stream, 4 memory, 5 the program's words.
    pub status: u8,
    /// Whether the fault's line was written; a writer that fails changes no status.
    pub told: io::Result<()>,
}

/// Writes the fault's line, and answers the status with which the program ends.
pub fn report<W: Write>(fault: &ProgramFault<'_>, writer: &mut W) -> Reported
    ensures status { result.status ≡ status_of fault.now }
    ensures told { OnOk result.told (Appends (W.contents writer.old) (W.contents writer.new) (line_of fault.now)) }
{
    let told = tell(fault, writer);
    let status = if fault.is_memory() {
        4
    } else {
        fault.plain_status()
    };
    Reported { status, told }
}
