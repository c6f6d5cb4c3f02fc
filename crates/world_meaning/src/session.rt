//! How a session answers: what became of a command, why a turn is abandoned, how a session ends.
ghost use Rattle.std.specs.Prelude.{◌≡◌, Some};
ghost use Rattle.world_meaning.specs.Abandoned.{reason_text};

use std::error::Error;
use std::fmt;

/// How a session ended.
#[derive(Clone, Copy, Debug, PartialEq, Eq)]
pub enum Ending {
    /// The commands ran out.
    EndOfInput,
    /// The player typed `quit`.
    Quit,
    /// The story ended.
    Story,
}

/// Why a turn is abandoned: the world stays as it was.
#[derive(Clone, Copy, Debug, Drop, PartialEq, Eq)]
pub enum Abandon {
    NestedTooDeep,
    Memory,
    TooMuchWork,
    NumberOutOfRange,
}

impl Abandon {
    /// The code and its name, as in `N2 Memory`.
    pub fn text(self) -> &'static str
        ensures { result.now ≡ reason_text self }
    {
        match self {
            Abandon::NestedTooDeep => "N1 NestedTooDeep",
            Abandon::Memory => "N2 Memory",
            Abandon::TooMuchWork => "N3 TooMuchWork",
            Abandon::NumberOutOfRange => "N4 NumberOutOfRange",
        }
    }
}

impl fmt::Display for Abandon {
    ghost output = { λ reason. Some (reason_text reason) };

    fn fmt<W: fmt::Write>(&self, f: &mut fmt::Formatter<W>) -> fmt::Result {
        f.write_str(self.text())
    }
}

impl Error for Abandon {}

/// What became of a command, and of a line by the last of its commands that was done.
#[derive(Clone, Copy, Debug, PartialEq, Eq)]
pub enum ReplyKind {
    /// A turn was played.
    Kept,
    /// The command cost no turn.
    Free,
    /// The turn was abandoned.
    Abandoned(Abandon),
    /// The session ended in the command.
    Ended,
    /// The session was over before the line.
    Over,
}
