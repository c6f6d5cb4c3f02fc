//! What the words of a new command mean.
ghost use Rattle.std.specs.Prelude.{◌≡◌, IfOk, OnErr, true};
ghost use Rattle.play_meaning.specs.Commands.{is_alone};
ghost use Rattle.command_parser.specs.Commanding.{command_by, line_command};
ghost use Rattle.command_parser.specs.Readings.{told};
ghost use Rattle.command_parser.specs.Settling.{is_asking};
ghost use Rattle.command_parser.specs.Typed.{typed};

use crate::lines::lines_reading;
use crate::unread::unread;
use crate::{Commands, Reading, Said};
use std::alloc::{AllocError, Global};
use world_meaning::is_spelled;

/// Whether a word is the only one of a line.
fn is_alone(words: &[&[u8]], word: &[u8]) -> bool
    ensures { result ≡ is_alone (typed words.now) word.now }
{
    match words {
        [] => false,
        [first, rest @ ..] => match rest {
            [] => is_spelled(first, word),
            [_, ..] => false,
        },
    }
}

/// What the first line that is read makes of the words; without one, what is said. Only a question takes memory.
fn line_command<C: Commands>(
    alloc: Global,
    commands: &C,
    words: &[&[u8]],
) -> Result<Reading, AllocError>
    ensures read { IfOk result (λ reading. told (C.grammar commands.now) reading ≡ line_command (C.grammar commands.now) (C.sees commands.now) (typed words.now)) }
    ensures asks { OnErr result (is_asking (line_command (C.grammar commands.now) (C.sees commands.now) (typed words.now)) ≡ true) }
{
    match lines_reading(alloc, commands, words)? {
        Some(reading) => Ok(reading),
        None => Ok(Reading::Says(unread(commands, words))),
    }
}

/// What the words of a command mean: `undo`, `quit` and `q` alone, else what a line makes of them. Only a question takes memory.
pub(crate) fn meaning<C: Commands>(
    alloc: Global,
    commands: &C,
    words: &[&[u8]],
) -> Result<Reading, AllocError>
    ensures read { IfOk result (λ reading. told (C.grammar commands.now) reading ≡ command_by (C.grammar commands.now) (C.sees commands.now) (typed words.now)) }
    ensures asks { OnErr result (is_asking (command_by (C.grammar commands.now) (C.sees commands.now) (typed words.now)) ≡ true) }
{
    if words.is_empty() {
        return Ok(Reading::Says(Said::Empty));
    }
    if is_alone(words, b"undo") {
        return Ok(Reading::Undo);
    }
    if is_alone(words, b"quit") || is_alone(words, b"q") {
        return Ok(Reading::Quit);
    }
    Ok(line_command(alloc, commands, words)?)
}
