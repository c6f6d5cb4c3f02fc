//! Playing a story file, and playing a source: compiled, loaded, started and run.
ghost use Rattle.std.specs.Prelude.{◌≡◌, false, IfErr, IfOk, OnOk};
ghost use Rattle.standard_rules.specs.HostTables.{rule_count};
ghost use Rattle.source_player.specs.SourceRuns.{FaultsWith, IsUnplayed, LeavesSource, LeavesStory, PlayedBytes, PlayedSource, PlayedStory, is_of_run};
ghost use Rattle.story_player.specs.Runs.{streams};
ghost use Rattle.story_player.specs.Watches.{watched_failed};

use standard_rules::HostTable;
use std::alloc::Global;
use std::io::{Read, Write};
use story_file::{LoadFault, compile, load};
use story_player::{RunFault, Session, StartFault, Watched, run};
use thiserror::Error;
use world_meaning::{Ending, Fault, TextBytes};

/// Why a source or a story isn't played to its end.
#[derive(Clone, Copy, Debug, Drop, PartialEq, Eq, Error)]
pub enum SourceRunFault {
    #[error("{0}")]
    Source(Fault),
    #[error("{0}")]
    Story(LoadFault),
    #[error("{0}")]
    Start(StartFault),
    #[error("{0}")]
    Run(RunFault),
}

/// Loads the story, begins it with these stored rules and plays it over the reader and the writer, each command being echoed
/// if asked. Answers the first fault of these, else how the session ended.
pub fn run_story<R: Read, W: Write>(
    alloc: Global,
    bytes: &[u8],
    hosts: HostTable,
    reader: &mut Watched<R>,
    writer: &mut Watched<W>,
    echo: bool,
) -> Result<Ending, SourceRunFault>
    requires reader { watched_failed reader.old ≡ false }
    requires writer { watched_failed writer.old ≡ false }

    // The play of the reader's commands, in the story's own game, was written.
    ensures played { IfOk result (PlayedStory bytes.now echo
        (streams R.remaining W.contents reader.old writer.old)
        (streams R.remaining W.contents reader.new writer.new)
        ) }

    // It is played with a whole table of stored rules.
    ensures whole { OnOk result (rule_count hosts ≡ 61) }

    // A fault says why not, and a fault in front of the run leaves reader and writer as they were.
    ensures left { IfErr result (λ fault. LeavesStory fault (rule_count hosts) bytes.now echo
        (streams R.remaining W.contents reader.old writer.old)
        (streams R.remaining W.contents reader.new writer.new)
        ) }
    ensures untouched { IfErr result (λ fault. is_of_run fault ≡ false → (reader.new ≡ reader.old) × (writer.new ≡ writer.old)) }

    // The run's fault is the reader's exactly where the reader has failed, and the writer's alike.
    ensures stand { OnOk result ((watched_failed reader.new ≡ false) × (watched_failed writer.new ≡ false)) }
    ensures broke { IfErr result (λ fault. FaultsWith fault (watched_failed reader.new) (watched_failed writer.new)) }
{
    let story = match load(alloc, bytes) {
        Ok(story) => story,
        Err(fault) => return Err(SourceRunFault::Story(fault)),
    };
    let mut session = match Session::start(alloc, story, hosts) {
        Ok(session) => session,
        Err(fault) => return Err(SourceRunFault::Start(fault)),
    };
    match run(reader, writer, &mut session, echo) {
        Ok(ending) => Ok(ending),
        Err(fault) => Err(SourceRunFault::Run(fault)),
    }
}

/// Compiles the source and plays the story over the reader and the writer, with these stored rules, each command being echoed
/// if asked. Answers the first fault of these, else how the session ended.
pub fn run_source<R: Read, W: Write>(
    alloc: Global,
    source: &[u8],
    hosts: HostTable,
    reader: &mut Watched<R>,
    writer: &mut Watched<W>,
    echo: bool,
) -> Result<Ending, SourceRunFault>
    requires reader { watched_failed reader.old ≡ false }
    requires writer { watched_failed writer.old ≡ false }

    // The play of the reader's commands, in the game of the tale that the source's sentences mean, was
    // written.
    ensures played { IfOk result (PlayedSource source.now echo
        (streams R.remaining W.contents reader.old writer.old)
        (streams R.remaining W.contents reader.new writer.new)
        ) }

    // It is played with a whole table of stored rules.
    ensures whole { OnOk result (rule_count hosts ≡ 61) }

    // A fault says why not, and a fault in front of the run leaves reader and writer as they were.
    ensures left { IfErr result (λ fault. LeavesSource fault (rule_count hosts) source.now echo
        (streams R.remaining W.contents reader.old writer.old)
        (streams R.remaining W.contents reader.new writer.new)
        ) }
    ensures untouched { IfErr result (λ fault. is_of_run fault ≡ false → (reader.new ≡ reader.old) × (writer.new ≡ writer.old)) }

    // The run's fault is the reader's exactly where the reader has failed, and the writer's alike.
    ensures stand { OnOk result ((watched_failed reader.new ≡ false) × (watched_failed writer.new ≡ false)) }
    ensures broke { IfErr result (λ fault. FaultsWith fault (watched_failed reader.new) (watched_failed writer.new)) }
{
    let bytes = match compile(alloc, source) {
        Ok(bytes) => bytes,
        Err(fault) => return Err(SourceRunFault::Source(fault)),
    };
    run_story(alloc, bytes.as_slice(), hosts, reader, writer, echo)
}

/// What a source that was played over bytes of commands gives: the bytes of its transcript, and how the
/// session ended.
#[derive(Debug, Drop)]
pub struct Play {
    pub transcript: TextBytes,
    pub ending: Ending,
}

/// Compiles the source and plays the story over the commands, with these stored rules, each command being echoed if asked.
pub fn play_bytes(
    alloc: Global,
    source: &[u8],
    hosts: HostTable,
    commands: &[u8],
    echo: bool,
) -> Result<Play, SourceRunFault>
    // The transcript is the play of the commands, in the game of the tale that the source's sentences mean.
    ensures played { IfOk result (λ play. PlayedBytes source.now commands.now echo play.transcript play.ending) }

    // It is played with a whole table of stored rules.
    ensures whole { OnOk result (rule_count hosts ≡ 61) }

    // A fault says why not: a refusal of the source, memory, a limit, or what stopped the run.
    ensures refused { IfErr result (λ fault. IsUnplayed fault (rule_count hosts) source.now commands.now echo) }
{
    let mut reader = Watched::new(commands);
    let mut writer = Watched::new(Vec::new(alloc));
    let ending = run_source(alloc, source, hosts, &mut reader, &mut writer, echo)?;
    Ok(Play {
        transcript: TextBytes::new(writer.into_inner()),
        ending,
    })
}
