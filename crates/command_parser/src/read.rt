//! What a command means: the two calls that a session makes.
ghost use Rattle.std.specs.Prelude.{◌≡◌, IfOk, None, OnErr, Some, true};
ghost use Rattle.play_meaning.specs.Commands.{read};
ghost use Rattle.command_parser.specs.Readings.{told};
ghost use Rattle.command_parser.specs.Settling.{is_asking};

use crate::answer::answer;
use crate::command::meaning;
use crate::{Command, Commands, Question, Reading};
use std::alloc::{AllocError, Global};

/// What a command means where no question is open. Memory is refused only where it is a question, the one reading that takes
/// any.
pub fn read_command<C: Commands>(
    alloc: Global,
    command: &Command<'_>,
    commands: &C,
) -> Result<Reading, AllocError>
    ensures read { IfOk result (λ reading. told (C.grammar commands.now) reading ≡ read (C.grammar commands.now) None (C.sees commands.now) command.now) }
    ensures asks { OnErr result (is_asking (read (C.grammar commands.now) None (C.sees commands.now) command.now) ≡ true) }
{
    Ok(meaning(alloc, commands, command.words())?)
}

/// What a command means where a question is open: its candidates are narrowed by the words of the command, and where none of
/// them goes by these it is a new one. Memory is refused only where it is a question, the one reading that takes any.
pub fn narrow<C: Commands>(
    alloc: Global,
    command: &Command<'_>,
    question: &Question,
    commands: &C,
) -> Result<Reading, AllocError>
    ensures read { IfOk result (λ reading. told (C.grammar commands.now) reading ≡ read (C.grammar commands.now) (Some question.now) (C.sees commands.now) command.now) }
    ensures asks { OnErr result (is_asking (read (C.grammar commands.now) (Some question.now) (C.sees commands.now) command.now) ≡ true) }
{
    Ok(answer(alloc, commands, question, command.words())?)
}
