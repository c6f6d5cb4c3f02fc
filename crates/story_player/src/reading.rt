//! What a command means, and what is said to one that does nothing.
ghost use Rattle.std.specs.Prelude.{◌≡◌, ◌≤◌, IfOk, OnErr, length, true};
ghost use Rattle.std.specs.Option.{option_map};
ghost use Rattle.command_parser.specs.Cutting.{command_count, told_parts};
ghost use Rattle.command_parser.specs.Readings.{said_text, told as told_of};
ghost use Rattle.command_parser.specs.Settling.{is_asking};
ghost use Rattle.story_player.specs.LineTexts.{longest_fixed, most_commands};
ghost use Rattle.story_player.specs.Meant.{read_in};
ghost use Rattle.story_player.specs.Typed.{parts_told, told};
ghost use Rattle.world_store.specs.StoryGrammars.{grammar_of};

use crate::in_play::InPlay;
use crate::texts;
use crate::typed::Typed;
use command_parser::{Command, Parts, Question, Reading, Said, narrow, read_command, split};
use std::alloc::{AllocError, Global};
use world_store::World;

/// What is said to a command that does nothing.
pub(crate) fn said_text(said: Said) -> &'static [u8]
    ensures text { result.now ≡ said_text said }
    ensures short { length result.now ≤ longest_fixed }
{
    match said {
        Said::Empty => texts::EMPTY,
        Said::TooLong => texts::TOO_LONG,
        Said::NoVerb => texts::NO_VERB,
        Said::NotSeen => texts::NOT_SEEN,
        Said::NotUnderstood => texts::NOT_UNDERSTOOD,
        Said::NoneOfAll => texts::NONE_OF_ALL,
    }
}

/// What a line is made of as it was typed.
pub(crate) fn parts(typed: Typed<'_>) -> Parts<'_>
    ensures parts { told_parts result ≡ parts_told (told typed.entry) }
    ensures few { command_count result ≤ most_commands }
{
    match typed {
        Typed::Whole(line) => split(line),
        Typed::Overlong { has_command: true } => Parts::Overlong,
        Typed::Overlong { has_command: false } => Parts::Blank,
    }
}

/// What a command means in a world, whether a question is open or none. Only a question takes memory.
pub(crate) fn read(
    alloc: Global,
    world: &World,
    question: Option<&Question>,
    command: &Command<'_>,
) -> Result<Reading, AllocError>
    ensures read { IfOk result (λ reading. told_of (grammar_of world.now.tables) reading ≡ read_in world.now (option_map (λ q. q.now) question.entry) command.now) }
    ensures asks { OnErr result (is_asking (read_in world.now (option_map (λ q. q.now) question.entry) command.now) ≡ true) }
{
    let play = InPlay { world };
    match question {
        None => Ok(read_command(alloc, command, &play)?),
        Some(question) => Ok(narrow(alloc, command, question, &play)?),
    }
}
