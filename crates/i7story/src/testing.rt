//! Trying kept transcripts: what a story says now is compared with them.
use crate::command::faulty;
use crate::deeds::{INPUT, bytes_of};
use crate::difference::write_difference;
use crate::saving::{is_same_file, save};
use golden_transcripts::{Exchange, Kept, Trial, TrialFault, tried};
use source_player::ProgramFault;
use std::alloc::{AllocError, Global};
use std::io::{self, Write};
use story_file::compile;
use story_player::RunFault;

/// With this a story file begins.
const MAGIC: &[u8] = b"I7ST";

/// With this a transcript ends, unless its story has ended.
const PROMPT: &[u8] = b"\n>";

/// How transcripts are tried.
#[derive(Clone, Copy, Debug)]
pub struct Trying {
    /// Whether each answer that differs is shown, and not the first alone.
    pub all: bool,
    /// Whether a file with an answer that differs is written anew.
    pub bless: bool,
}

/// Whether all answers were as they were kept.
#[derive(Clone, Copy, Debug, PartialEq, Eq)]
pub enum Verdict {
    Same,
    Differs,
}

/// A story that transcripts are tried with.
#[derive(Drop)]
struct Tested<'a> {
    path: &'a str,
    bytes: Vec<u8>,
}

/// What became of a file's transcripts.
#[derive(Clone, Copy, Debug)]
struct Tally {
    answers: u32,
    differ: u32,
    verdict: Verdict,
    /// Whether a prompt was found in each, so that they are transcripts at all.
    prompted: bool,
}

/// The program's fault where the story of this path isn't tried.
fn trial_fault<'a>(path: &'a str, fault: TrialFault) -> ProgramFault<'a> {
    match fault {
        TrialFault::Story(fault) => ProgramFault::Story(path, fault),
        TrialFault::Memory => ProgramFault::Memory,
        TrialFault::InputTooLong => ProgramFault::Stream(RunFault::InputTooLong),
    }
}

/// What is told can't be written.
fn unwritten<'a>() -> ProgramFault<'a> {
    ProgramFault::Stream(RunFault::Write)
}

/// The story of a file, which may hold its source too.
fn story_in<'a>(rt: &HostRuntime, path: &'a str) -> Result<Tested<'a>, ProgramFault<'a>> {
    let bytes = bytes_of(rt, path)?;
    if bytes.as_slice().starts_with(MAGIC) {
        return Ok(Tested { path, bytes });
    }
    match compile(rt.alloc(), bytes.as_slice()) {
        Ok(bytes) => Ok(Tested { path, bytes }),
        Err(fault) => Err(ProgramFault::Source(path, fault)),
    }
}

/// Writes an exchange whose answers differ.
fn show<W: Write>(out: &mut W, path: &str, exchange: &Exchange<'_>) -> io::Result<()> {
    write!(out, "{path}:{}: ", exchange.line)?;
    match exchange.command {
        Some(command) => {
            out.write_all(b">")?;
            out.write_all(command)?;
        }
        None => out.write_all(b"the opening")?,
    }
    out.write_all(b"\n")?;
    write_difference(out, exchange.kept, exchange.said.as_slice())
}

/// Writes what differs in a transcript, the first exchange or each, and counts.
fn show_trial<W: Write>(
    out: &mut W,
    path: &str,
    trial: &Trial<'_>,
    all: bool,
    tally: &mut Tally,
) -> io::Result<()> {
    let before = tally.differ;
    for exchange in trial.exchanges.iter() {
        tally.answers = tally.answers.saturating_add(1);
        if !exchange.is_same() {
            tally.differ = tally.differ.saturating_add(1);
            if all || tally.differ == 1 {
                show(out, path, exchange)?;
            }
        }
    }
    if trial.same {
        return Ok(());
    }
    tally.verdict = Verdict::Differs;
    tally.prompted = tally.prompted && (trial.exchanges.len() > 1 || trial.kept.ends_with(PROMPT));
    if tally.differ == before {
        writeln!(out, "{path}: what was kept ends elsewhere")?;
    }
    Ok(())
}

/// Writes what became of a file.
fn show_tally<W: Write>(out: &mut W, path: &str, tally: Tally, bless: bool) -> io::Result<()> {
    let (same, all) = (tally.answers.saturating_sub(tally.differ), tally.answers);
    match tally.verdict {
        Verdict::Same => writeln!(out, "{path}: same, {same} of {all} answers"),
        Verdict::Differs if bless => writeln!(
            out,
            "{path}: written anew, {same} of {all} answers were the same"
        ),
        Verdict::Differs => writeln!(out, "{path}: differs, {same} of {all} answers are the same"),
    }
}

/// Puts a transcript as it is now behind what was written of its file. What is a comment stays a line of its own.
fn write_anew(file: &mut Vec<u8>, trial: &Trial<'_>) -> Result<(), AllocError> {
    file.extend_from_slice(trial.comments)?;
    if !trial.comments.is_empty() && !trial.comments.ends_with(b"\n") {
        file.push(b'\n')?;
    }
    file.extend_from_slice(trial.transcript.as_slice())?;
    file.extend_from_slice(trial.breaks)
}

/// The bytes of a file of transcripts, each carriage return in front of a line break, or of the end, dropped.
fn transcripts_of<'a>(rt: &HostRuntime, path: &'a str) -> Result<Vec<u8>, ProgramFault<'a>> {
    let bytes = bytes_of(rt, path)?;
    let mut kept = Vec::new(rt.alloc());
    for (place, byte) in bytes.as_slice().iter().enumerate() {
        let ends = matches!(bytes.as_slice().get(place + 1), None | Some(b'\n'));
        if *byte != b'\r' || !ends {
            kept.push(*byte).map_err(|_| ProgramFault::Memory)?;
        }
    }
    Ok(kept)
}

/// Tries the transcripts of a file, one behind the other, shows what differs, and gives the file as it would be written anew.
fn try_each<'a>(
    rt: &HostRuntime,
    story: &Tested<'a>,
    path: &'a str,
    kept: &[u8],
    how: Trying,
) -> Result<(Tally, Vec<u8>), ProgramFault<'a>> {
    let mut file = Kept::new(kept);
    let mut anew = Vec::new(rt.alloc());
    let mut tally = Tally {
        answers: 0,
        differ: 0,
        verdict: Verdict::Same,
        prompted: true,
    };
    let mut out = rt.stdout();
    for _ in 0..=kept.len() {
        let trial = tried(rt.alloc(), story.bytes.as_slice(), &mut file).map_err(
            |fault| trial_fault(story.path, fault),
        )?;
        show_trial(&mut out, path, &trial, how.all, &mut tally).map_err(|_| unwritten())?;
        write_anew(&mut anew, &trial).map_err(|_| ProgramFault::Memory)?;
        if file.rest.is_empty() {
            break;
        }
    }
    Ok((tally, anew))
}

/// Tries the transcripts of a file, and writes it anew where that is asked for and they differ. A file without a prompt is none of
/// transcripts, and stays.
fn try_file<'a>(
    rt: &HostRuntime,
    story: &Tested<'a>,
    path: &'a str,
    how: Trying,
) -> Result<Verdict, ProgramFault<'a>> {
    let kept = transcripts_of(rt, path)?;
    let (tally, anew) = try_each(rt, story, path, kept.as_slice(), how)?;
    let is_anew = how.bless
        && tally.verdict == Verdict::Differs
        && (tally.prompted || kept.is_empty());
    if is_anew {
        save(rt, path, anew.as_slice())?;
    }
    show_tally(&mut rt.stdout(), path, tally, is_anew).map_err(|_| unwritten())?;
    Ok(if is_anew {
        Verdict::Same
    } else {
        tally.verdict
    })
}

/// Refuses what can't be a file of transcripts: standard input, and, where it may be written anew, the story's own file.
fn check_path<'a>(
    rt: &HostRuntime,
    story: &str,
    path: &'a str,
    how: Trying,
) -> Result<(), ProgramFault<'a>> {
    if path == INPUT {
        return Err(faulty(
            rt.alloc(),
            "i7story: a transcript is kept in a file, and - is none\n",
        ));
    }
    if how.bless && is_same_file(rt, story, path) {
        return Err(ProgramFault::CannotWrite(path));
    }
    Ok(())
}

/// Tries the transcripts of these files with a story, or the story of a source.
pub fn try_files<'a>(
    rt: &HostRuntime,
    story: &'a str,
    paths: &[&'a str],
    how: Trying,
) -> Result<Verdict, ProgramFault<'a>> {
    for path in paths {
        check_path(rt, story, path, how)?;
    }
    let story = story_in(rt, story)?;
    let mut verdict = Verdict::Same;
    for path in paths {
        if try_file(rt, &story, path, how)? == Verdict::Differs {
            verdict = Verdict::Differs;
        }
    }
    Ok(verdict)
}
