//! Trying a kept transcript: its commands are found and played.
ghost use Rattle.std.specs.Prelude.{◌≡◌, ◌++◌, IfErr, IfOk, OnOk, bytes_eq, flat_map};
ghost use Rattle.golden_transcripts.specs.Commands.{line_of};
ghost use Rattle.golden_transcripts.specs.Transcripts.{IsBehind, IsTranscript, IsUntried};
ghost use Rattle.story_format.specs.Spells.{Spells};

use crate::exchange::Exchange;
use crate::fault::TrialFault;
use crate::kept::Kept;
use standard_rules::HostTable;
use std::alloc::{AllocError, Global};
use story_format::{Story, load};
use story_player::{RunFault, Session, Watched, run};
use world_meaning::TextBytes;

/// What became of a kept transcript.
#[derive(Drop)]
pub struct Trial<'a> {
    /// The lines of comments in front of it.
    pub comments: &'a [u8],
    /// The transcript as it was kept, and what is left of it where the story has ended before.
    pub kept: &'a [u8],
    /// The line breaks behind it.
    pub breaks: &'a [u8],
    /// The opening and each command that was found, with both answers.
    pub exchanges: Vec<Exchange<'a>>,
    /// The commands, a line each.
    pub commands: TextBytes,
    /// The transcript of these commands.
    pub transcript: TextBytes,
    /// Whether it is the one that was kept.
    pub same: bool,
}

/// What was found in a kept file by playing.
#[derive(Drop)]
struct Found<'a> {
    comments: &'a [u8],
    /// What stands behind the comments.
    begun: &'a [u8],
    exchanges: Vec<Exchange<'a>>,
}

/// The story that these bytes spell.
fn loaded(alloc: Global, bytes: &[u8]) -> Result<Story, TrialFault>
    ensures found { IfOk result (Spells bytes.now) }
    ensures left { IfErr result (λ fault. IsUntried bytes.now fault) }
{
    match load(alloc, bytes) {
        Ok(story) => Ok(story),
        Err(fault) => Err(TrialFault::Story(fault)),
    }
}

/// The transcript of a story's commands, which are echoed.
///
/// # Errors
///
/// The story's fault, want of memory, or that there are too many commands.
pub fn transcript_of(alloc: Global, story: &[u8], commands: &[u8]) -> Result<TextBytes, TrialFault>
    ensures played { IfOk result (λ transcript. IsTranscript story.now commands.now transcript) }
    ensures left { IfErr result (λ fault. IsUntried story.now fault) }
{
    let Ok(hosts) = HostTable::standard(alloc) else {
        return Err(TrialFault::Memory);
    };
    let story = match loaded(alloc, story) {
        Ok(story) => story,
        Err(fault) => {
            drop(hosts);
            return Err(fault);
        }
    };
    let Ok(mut session) = Session::start(alloc, story, hosts) else {
        return Err(TrialFault::Memory);
    };
    let mut reader = Watched::new(commands);
    let mut writer = Watched::new(Vec::new(alloc));
    match run(&mut reader, &mut writer, &mut session, true) {
        Ok(_) => Ok(TextBytes::new(writer.into_inner())),
        Err(RunFault::InputTooLong) => Err(TrialFault::InputTooLong),
        Err(_) => Err(TrialFault::Memory),
    }
}

/// Adds a command that was found at a line, or the opening, with what is said to it and what was kept.
fn add_exchange<'a>(
    alloc: Global,
    exchanges: &mut Vec<Exchange<'a>>,
    file: &mut Kept<'a>,
    asked: (u32, Option<&'a [u8]>),
    answer: &[u8],
    has_ended: bool,
) -> Result<(), AllocError>
    ensures { IsBehind file.old.rest.now file.new.rest.now }
{
    let (line, command) = asked;
    let kept = file.take_answer(answer, has_ended);
    let mut said = Vec::new(alloc);
    said.extend_from_slice(answer)?;
    exchanges.push(Exchange {
        line,
        command,
        kept,
        said,
    })?;
    Ok(())
}

/// The opening, and each command that a kept transcript holds, with both answers: a command is what stands behind a prompt that the
/// story gives, too. The session is begun and played here, since a function that hands one out could hand out any stored rules.
fn found_in<'a>(
    alloc: Global,
    story: Story,
    hosts: HostTable,
    file: &mut Kept<'a>,
) -> Result<Found<'a>, AllocError>
    ensures parts { IfOk result (λ found. file.old.rest.now ≡ found.comments.now ++ found.begun.now) }
    ensures behind { IfOk result (λ found. IsBehind found.begun.now file.new.rest.now) }
{
    let Ok(mut session) = Session::start(alloc, story, hosts) else {
        return Err(AllocError);
    };
    let has_ended = session.ending().is_some();
    let comments = file.take_comments(session.opening(), has_ended);
    let begun = file.rest;
    let first = (file.line, None);
    let mut exchanges = Vec::new(alloc);
    let mut added = add_exchange(
        alloc,
        &mut exchanges,
        file,
        first,
        session.opening(),
        has_ended,
    );
    while let Some((line, command)) = file.take_command(
        added.is_err() || session.ending().is_some(),
    ) {
        let reply = session.line(command);
        let has_ended = session.ending().is_some();
        let asked = (line, Some(command));
        added = add_exchange(alloc, &mut exchanges, file, asked, reply.text(), has_ended);
    }
    drop(session);
    added?;
    Ok(Found {
        comments,
        begun,
        exchanges,
    })
}

/// Puts a command behind others, with a line break, if there is one.
fn add_command(commands: &mut Vec<u8>, exchange: &Exchange<'_>) -> Result<(), AllocError>
    ensures { OnOk result (commands.new.items ≡ commands.old.items ++ line_of exchange.now) }
{
    let Some(command) = exchange.command else {
        return Ok(());
    };
    commands.extend_from_slice(command)?;
    commands.push(b'\n')?;
    Ok(())
}

/// The commands of these exchanges, a line each.
fn commands_of(alloc: Global, exchanges: &[Exchange<'_>]) -> Result<Vec<u8>, AllocError>
    ensures { IfOk result (λ commands. commands.items ≡ flat_map line_of exchanges.now) }
{
    let mut commands = Vec::new(alloc);
    let mut rest = exchanges;
    while let [exchange, behind @ ..] = rest {
        add_command(&mut commands, exchange)?;
        rest = behind;
    }
    Ok(commands)
}

/// Tries the transcript at the front of a kept file, which it takes, with the comments in front of it and the line breaks behind.
///
/// # Errors
///
/// The story's fault, want of memory, or that there are too many commands.
pub fn tried<'a>(alloc: Global, story: &[u8], file: &mut Kept<'a>) -> Result<Trial<'a>, TrialFault>
    // What was found is a part of the file, and nothing of the file is lost.
    ensures parts { IfOk result (λ trial. file.old.rest.now ≡ trial.comments.now ++ (trial.kept.now ++ (trial.breaks.now ++ file.new.rest.now))) }
    ensures commands { IfOk result (λ trial. trial.commands ≡ flat_map line_of trial.exchanges.items) }

    // It is the same exactly where it is the transcript of these commands.
    ensures played { IfOk result (λ trial. IsTranscript story.now trial.commands trial.transcript) }
    ensures same { IfOk result (λ trial. trial.same ≡ bytes_eq trial.transcript trial.kept.now) }
    ensures left { IfErr result (λ fault. IsUntried story.now fault) }
{
    let Ok(hosts) = HostTable::standard(alloc) else {
        return Err(TrialFault::Memory);
    };
    let game = match loaded(alloc, story) {
        Ok(story) => story,
        Err(fault) => {
            drop(hosts);
            return Err(fault);
        }
    };
    let Ok(found) = found_in(alloc, game, hosts, file) else {
        return Err(TrialFault::Memory);
    };
    file.take_left();
    let (kept, _) = found.begun.split_at(found.begun.len() - file.rest.len());
    let breaks = file.take_breaks();
    let Ok(commands) = commands_of(alloc, found.exchanges.as_slice()) else {
        return Err(TrialFault::Memory);
    };
    let transcript = transcript_of(alloc, story, commands.as_slice())?;
    let same = transcript.as_slice() == kept;
    Ok(Trial {
        comments: found.comments,
        kept,
        breaks,
        exchanges: found.exchanges,
        commands: TextBytes::new(commands),
        transcript,
        same,
    })
}
