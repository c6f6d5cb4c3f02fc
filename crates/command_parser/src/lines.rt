//! What the lines of a grammar make of a command's words: the first is read that is said of all things, or leaves no slot
//! without a candidate.
ghost use Rattle.std.specs.Prelude.{◌≡◌, Some, IfOk, OnErr, true};
ghost use Rattle.std.specs.Option.{option_map};
ghost use Rattle.command_parser.specs.Commanding.{asks_if, filled_read, line_outcome, line_read, lines_read};
ghost use Rattle.command_parser.specs.Readings.{told};
ghost use Rattle.command_parser.specs.Tokens.{line_at};
ghost use Rattle.command_parser.specs.Typed.{typed};

use crate::all::means_all;
use crate::filling::Outcome;
use crate::listing::slots;
use crate::searching::search;
use crate::settling::{done_to, settle};
use crate::{Commands, Reading, Said};
use std::alloc::{AllocError, Global};

/// What a line is read as, if its slots can be filled, their candidates listed.
fn listed_reading<C: Commands>(
    alloc: Global,
    commands: &C,
    line: u16,
    words: &[&[u8]],
) -> Result<Option<Reading>, AllocError>
    ensures { IfOk result (λ reading. option_map (told (C.grammar commands.now)) reading
        ≡ filled_read (C.grammar commands.now) (C.sees commands.now) (typed words.now) (line_at (C.grammar commands.now) line)) }
{
    match slots(alloc, commands, line, 0, words)? {
        None => Ok(None),
        Some(slots) => {
            let action = commands.action(line);
            let chosen = Vec::new(alloc);
            Ok(Some(settle(alloc, commands, action, chosen, slots.as_slice())?))
        }
    }
}

/// What a line is read as of which it is known what its slots come to. Only a question takes memory.
fn outcome_reading<C: Commands>(
    alloc: Global,
    commands: &C,
    line: u16,
    words: &[&[u8]],
    outcome: Outcome,
) -> Result<Option<Reading>, AllocError>
    requires comes_to { line_outcome (C.grammar commands.now) (C.sees commands.now) (typed words.now) (line_at (C.grammar commands.now) line) ≡ Some outcome }
    ensures read { IfOk result (λ reading. option_map (told (C.grammar commands.now)) reading
        ≡ filled_read (C.grammar commands.now) (C.sees commands.now) (typed words.now) (line_at (C.grammar commands.now) line)) }
    ensures asks { OnErr result (asks_if (filled_read (C.grammar commands.now) (C.sees commands.now) (typed words.now) (line_at (C.grammar commands.now) line)) ≡ true) }
{
    match outcome {
        Outcome::Acts(now) => Ok(Some(Reading::Acts(now))),
        Outcome::NotSeen => Ok(Some(Reading::Says(Said::NotSeen))),
        Outcome::Asks => Ok(listed_reading(alloc, commands, line, words)?),
    }
}

/// What a line is read as, if its slots can be filled. Only a question takes memory.
fn filled_reading<C: Commands>(
    alloc: Global,
    commands: &C,
    line: u16,
    words: &[&[u8]],
) -> Result<Option<Reading>, AllocError>
    ensures read { IfOk result (λ reading. option_map (told (C.grammar commands.now)) reading
        ≡ filled_read (C.grammar commands.now) (C.sees commands.now) (typed words.now) (line_at (C.grammar commands.now) line)) }
    ensures asks { OnErr result (asks_if (filled_read (C.grammar commands.now) (C.sees commands.now) (typed words.now) (line_at (C.grammar commands.now) line)) ≡ true) }
{
    let begun = done_to(commands.action(line), &[]);
    match search(commands, &begun, line, 0, words) {
        None => Ok(None),
        Some(outcome) => Ok(outcome_reading(alloc, commands, line, words, outcome)?),
    }
}

/// What a line is read as, if it is: said of all things, whatever goes by the word for these, else by the candidates of its
/// slots. Only a question takes memory.
fn line_reading<C: Commands>(
    alloc: Global,
    commands: &C,
    line: u16,
    words: &[&[u8]],
) -> Result<Option<Reading>, AllocError>
    ensures read { IfOk result (λ reading. option_map (told (C.grammar commands.now)) reading
        ≡ line_read (C.grammar commands.now) (C.sees commands.now) (typed words.now) (line_at (C.grammar commands.now) line)) }
    ensures asks { OnErr result (asks_if (line_read (C.grammar commands.now) (C.sees commands.now) (typed words.now) (line_at (C.grammar commands.now) line)) ≡ true) }
{
    if means_all(commands, line, words) {
        return Ok(Some(Reading::ActsAll(commands.action(line))));
    }
    Ok(filled_reading(alloc, commands, line, words)?)
}

/// What the first line that is read is read as. Only a question takes memory.
pub(crate) fn lines_reading<C: Commands>(
    alloc: Global,
    commands: &C,
    words: &[&[u8]],
) -> Result<Option<Reading>, AllocError>
    ensures read { IfOk result (λ reading. option_map (told (C.grammar commands.now)) reading
        ≡ lines_read (C.grammar commands.now) (C.sees commands.now) (typed words.now) (C.grammar commands.now).lines) }
    ensures asks { OnErr result (asks_if (lines_read (C.grammar commands.now) (C.sees commands.now) (typed words.now) (C.grammar commands.now).lines) ≡ true) }
{
    let count = commands.line_count();
    for line in 0..count {
        match line_reading(alloc, commands, line, words)? {
            Some(reading) => return Ok(Some(reading)),
            None => {}
        }
    }
    Ok(None)
}
