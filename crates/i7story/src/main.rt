//! The program: compiles a source to a story file, plays a story file, or plays a source.
#![tactic(auto)]

mod command;
mod deeds;
mod difference;
mod saving;
mod testing;

use command::{told, unreadable};
use deeds::obey;
use source_player::{ProgramFault, report};
use std::env;
use std::io::ErrorKind;
use std::process::ExitCode;
use testing::Verdict;

/// The status where an answer isn't as it was kept.
const DIFFERS: u8 = 6;

/// The program's words.
fn words_of<'a>(rt: &HostRuntime) -> Result<Vec<String>, ProgramFault<'a>> {
    let alloc = rt.alloc();
    match env::args(rt) {
        Ok(args) => args.collect(alloc).map_err(|_| ProgramFault::Memory),
        Err(error) if error.kind() == ErrorKind::OutOfMemory => Err(ProgramFault::Memory),
        Err(_) => Err(unreadable(alloc)),
    }
}

/// Does what the words ask.
fn obeyed<'a>(rt: &HostRuntime, words: &'a [String]) -> Result<Verdict, ProgramFault<'a>> {
    obey(rt, told(rt, words)?)
}

/// Does what the words ask, and answers the status.
fn status(rt: &HostRuntime) -> u8 {
    let words = match words_of(rt) {
        Ok(words) => words,
        Err(fault) => return report(&fault, &mut rt.stderr()).status,
    };
    match obeyed(rt, words.as_slice()) {
        Ok(Verdict::Same) => 0,
        Ok(Verdict::Differs) => DIFFERS,
        Err(fault) => report(&fault, &mut rt.stderr()).status,
    }
}

fn main(rt: HostRuntime) -> ExitCode {
    ExitCode::from(status(&rt))
}
