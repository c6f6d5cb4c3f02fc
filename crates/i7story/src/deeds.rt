//! What the program does with its files and streams.
ghost use Rattle.std.specs.Prelude.{◌≡◌, false, IfOk};
ghost use Rattle.story_player.specs.Watches.{watched_failed};

use crate::command::{Order, Playing, faulty};
use crate::saving::{is_same_file, save};
use crate::testing::{Verdict, try_files};
use rule_listing::{Unsought, Words, rules_about};
use source_outline::Unlisted;
use source_player::{ProgramFault, SourceRunFault, run_source, run_story};
use standard_rules::HostTable;
use std::alloc::Global;
use std::fs::{self, File};
use std::io::{self, BufReader, ErrorKind, Read, Write};
use story_file::compile;
use story_index::index_page;
use story_player::{RunFault, Watched};

/// The path that is standard input where a file is read, and what it leads to.
pub const INPUT: &str = "-";

const STANDARD_INPUT: &str = "/dev/stdin";

/// The program's fault where a file of this path isn't read.
fn unread<'a>(path: &'a str, error: &io::Error) -> ProgramFault<'a> {
    if error.kind() == ErrorKind::OutOfMemory {
        ProgramFault::Memory
    } else {
        ProgramFault::CannotRead(path)
    }
}

/// Reads a file whole, or standard input.
pub fn bytes_of<'a>(rt: &HostRuntime, path: &'a str) -> Result<Vec<u8>, ProgramFault<'a>> {
    let read = if path == INPUT {
        let mut bytes = Vec::new(rt.alloc());
        rt.stdin().read_to_end(&mut bytes).map(|_| bytes)
    } else {
        fs::read(rt, path)
    };
    read.map_err(|error| unread(path, &error))
}

/// Whether a story would take the place of its own source.
fn is_source(rt: &HostRuntime, source: &str, story: &str) -> bool {
    let source = if source == INPUT {
        STANDARD_INPUT
    } else {
        source
    };
    is_same_file(rt, source, story)
}

/// Compiles a source file to a story file.
fn compile_file<'a>(
    rt: &HostRuntime,
    source: &'a str,
    story: &'a str,
) -> Result<(), ProgramFault<'a>> {
    let bytes = bytes_of(rt, source)?;
    let compiled = compile(rt.alloc(), bytes.as_slice()).map_err(|fault| ProgramFault::Source(
        source, fault,
    ))?;
    if is_source(rt, source, story) {
        return Err(ProgramFault::CannotWrite(story));
    }
    save(rt, story, compiled.as_slice())
}

/// The program's fault where nothing is told of the source of this path.
fn untold<'a>(source: &'a str, unlisted: Unlisted) -> ProgramFault<'a> {
    match unlisted {
        Unlisted::Refused(fault) => ProgramFault::Source(source, fault),
        Unlisted::Unloaded(fault) => ProgramFault::Story(source, fault),
        Unlisted::Memory(_) => ProgramFault::Memory,
    }
}

/// The program's fault where no rules are sought.
fn unsought<'a>(alloc: Global, source: &'a str, unsought: Unsought) -> ProgramFault<'a> {
    match unsought {
        Unsought::Unlisted(unlisted) => untold(source, unlisted),
        Unsought::NoAction => faulty(
            alloc,
            "i7story: --for names no action of the source, or a noun that isn't there\n",
        ),
        Unsought::NoRoom => faulty(alloc, "i7story: --in names no room of the source\n"),
    }
}

/// Writes a text to standard output.
fn print<'a>(rt: &HostRuntime, text: &[u8]) -> Result<(), ProgramFault<'a>> {
    match rt.stdout().write_all(text) {
        Ok(()) => Ok(()),
        Err(_) => Err(ProgramFault::Stream(RunFault::Write)),
    }
}

/// Prints the rulebooks of a source file, of the rules that the words seek.
fn list_rules<'a>(
    rt: &HostRuntime,
    source: &'a str,
    words: Words<'a>,
) -> Result<(), ProgramFault<'a>> {
    let bytes = bytes_of(rt, source)?;
    match rules_about(rt.alloc(), bytes.as_slice(), &words) {
        Ok(told) => print(rt, told.as_bytes()),
        Err(error) => Err(unsought(rt.alloc(), source, error)),
    }
}

/// Writes the page of a source file to standard output, or to a file.
fn write_index<'a>(
    rt: &HostRuntime,
    source: &'a str,
    page: Option<&'a str>,
    with_source: bool,
) -> Result<(), ProgramFault<'a>> {
    let bytes = bytes_of(rt, source)?;
    let told = match index_page(rt.alloc(), bytes.as_slice(), with_source) {
        Ok(told) => told,
        Err(unlisted) => return Err(untold(source, unlisted)),
    };
    match page {
        None => print(rt, told.as_slice()),
        Some(page) if is_source(rt, source, page) => Err(ProgramFault::CannotWrite(page)),
        Some(page) => save(rt, page, told.as_slice()),
    }
}

/// The commands that a reader gives, read by the block.
fn commands<'a, R: Read + Drop>(
    rt: &HostRuntime,
    reader: R,
) -> Result<Watched<BufReader<R>>, ProgramFault<'a>>
    ensures { IfOk result (λ input. watched_failed input ≡ false) }
{
    match BufReader::new(rt.alloc(), reader) {
        Ok(input) => Ok(Watched::new(input)),
        Err(_) => Err(ProgramFault::Memory),
    }
}

/// The program's fault for a fault of playing the file of this path. All stored rules are there, so that only want of memory
/// keeps a session from beginning.
fn playing_fault<'a>(path: &'a str, fault: SourceRunFault) -> ProgramFault<'a> {
    match fault {
        SourceRunFault::Source(fault) => ProgramFault::Source(path, fault),
        SourceRunFault::Story(fault) => ProgramFault::Story(path, fault),
        SourceRunFault::Start(_) => ProgramFault::Memory,
        SourceRunFault::Run(fault) => ProgramFault::Stream(fault),
    }
}

/// What a file that is played holds.
#[derive(Clone, Copy, Debug)]
enum Holds {
    Story,
    Source,
}

/// A file that is played: its path, what it holds, and whether the commands are echoed.
#[derive(Drop)]
struct Played<'a> {
    path: &'a str,
    holds: Holds,
    bytes: Vec<u8>,
    transcript: bool,
}

/// Plays a file over the commands of a reader and the standard output.
fn play<'a, R: Read + Drop>(
    rt: &HostRuntime,
    played: &Played<'a>,
    hosts: HostTable,
    reader: R,
) -> Result<(), ProgramFault<'a>> {
    let mut input = commands(rt, reader)?;
    let mut output = Watched::new(rt.stdout());
    let alloc = rt.alloc();
    let bytes = played.bytes.as_slice();
    let echo = played.transcript;
    let ending = match played.holds {
        Holds::Story => run_story(alloc, bytes, hosts, &mut input, &mut output, echo),
        Holds::Source => run_source(alloc, bytes, hosts, &mut input, &mut output, echo),
    };
    match ending {
        Ok(_) => Ok(()),
        Err(fault) => Err(playing_fault(played.path, fault)),
    }
}

/// The file of the commands, where they come from one. Standard input can't give both what is played and the commands.
fn commands_file<'a>(
    rt: &HostRuntime,
    path: &str,
    commands: Option<&'a str>,
) -> Result<Option<File>, ProgramFault<'a>> {
    match commands {
        Some(commands) => match File::open(rt, commands) {
            Ok(file) => Ok(Some(file)),
            Err(error) => Err(unread(commands, &error)),
        },
        None if path == INPUT => Err(faulty(
            rt.alloc(),
            "i7story: - is no file, since the commands come from standard input; with --commands FILE it is standard input\n",
        )),
        None => Ok(None),
    }
}

/// Plays a file over its commands and the standard output, each stored rule being the standard one of its number.
fn play_file<'a>(
    rt: &HostRuntime,
    path: &'a str,
    holds: Holds,
    playing: Playing<'a>,
) -> Result<(), ProgramFault<'a>> {
    let file = commands_file(rt, path, playing.commands)?;
    let played = Played {
        path,
        holds,
        bytes: bytes_of(rt, path)?,
        transcript: playing.transcript,
    };
    let hosts = HostTable::standard(rt.alloc()).map_err(|_| ProgramFault::Memory)?;
    match file {
        Some(file) => play(rt, &played, hosts, file),
        None => play(rt, &played, hosts, rt.stdin()),
    }
}

/// Does what the program is told; only where transcripts are tried anything may differ.
pub fn obey<'a>(rt: &HostRuntime, order: Order<'a>) -> Result<Verdict, ProgramFault<'a>> {
    match order {
        Order::Compile { source, story } => compile_file(rt, source, story)?,
        Order::Rules { source, words } => list_rules(rt, source, words)?,
        Order::Index {
            source,
            page,
            with_source,
        } => write_index(rt, source, page, with_source)?,
        Order::Play { story, playing } => play_file(rt, story, Holds::Story, playing)?,
        Order::Run { source, playing } => play_file(rt, source, Holds::Source, playing)?,
        Order::Test {
            story,
            transcripts,
            how,
        } => {
            return try_files(rt, story, transcripts.as_slice(), how);
        }
    }
    Ok(Verdict::Same)
}
