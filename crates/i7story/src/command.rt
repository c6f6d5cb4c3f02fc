//! The program's words.
use crate::testing::Trying;
use clap::error::ErrorKind;
use clap::{Arg, ArgAction, ArgMatches, Command, Error};
use rule_listing::Words;
use source_player::ProgramFault;
use std::alloc::{AllocError, Global};

/// How a file is played.
#[derive(Clone, Copy, Debug, Drop)]
pub struct Playing<'a> {
    /// The file of the commands, where they don't come from standard input.
    pub commands: Option<&'a str>,
    /// Whether the commands are echoed.
    pub transcript: bool,
}

/// What the program is told to do.
#[derive(Debug, Drop)]
pub enum Order<'a> {
    Compile {
        source: &'a str,
        story: &'a str,
    },
    Index {
        source: &'a str,
        /// The file of the page, where it isn't standard output.
        page: Option<&'a str>,
        /// Whether the source stands in the page.
        with_source: bool,
    },
    Play {
        story: &'a str,
        playing: Playing<'a>,
    },
    Rules {
        source: &'a str,
        words: Words<'a>,
    },
    Run {
        source: &'a str,
        playing: Playing<'a>,
    },
    Test {
        story: &'a str,
        transcripts: Vec<&'a str>,
        how: Trying,
    },
}

/// A word that must be there.
fn file<'a>(alloc: Global, name: &'a str, help: &'a str) -> Arg<'a> {
    Arg::new(alloc, name).required(true).help(help)
}

/// A form that plays a file, with commands from a file or from standard input, and may echo them.
fn with_commands<'a>(
    command: Command<'a>,
    alloc: Global,
    file: Arg<'a>,
) -> Result<Command<'a>, AllocError> {
    command
        .arg(file)?
        .arg(
            Arg::new(alloc, "commands")
                .long("commands")
                .value_name("FILE")
                .action(ArgAction::Set)
                .help(
                    "Reads the commands from FILE, a line each; without it they come from standard input",
                ),
        )?
        .arg(
            Arg::new(alloc, "transcript")
                .long("transcript")
                .action(ArgAction::SetTrue)
                .help(
                    "Writes each command behind its prompt, so that what is written is the whole transcript",
                ),
        )
}

/// The form that compiles.
fn compiling<'a>(alloc: Global) -> Result<Command<'a>, AllocError> {
    let story = "The story file; one that is there stays as it is until the new one is whole";
    Command::new(alloc, "compile")
        .about("Compiles a source to a story file")
        .after_help("Example: i7story compile stories/ferry.i7 ferry.story")
        .arg(file(
            alloc,
            "SOURCE",
            "The source, a text as stories/two-rooms.i7 is one; - is standard input",
        ))?
        .arg(file(alloc, "STORY", story))
}

/// The form that lists rulebooks.
fn listing<'a>(alloc: Global) -> Result<Command<'a>, AllocError> {
    Command::new(alloc, "rules")
        .about(
            "Lists the rulebooks of a source, each with its rules in the order in which they are asked and what puts them there",
        )
        .after_help("Example: i7story rules stories/ferry.i7 --for \"taking the oar\"")
        .arg(file(
            alloc,
            "SOURCE",
            "The source, a text as stories/two-rooms.i7 is one; - is standard input",
        ))?
        .arg(
            Arg::new(alloc, "for")
                .long("for")
                .value_name("ACTION")
                .action(ArgAction::Set)
                .help(
                    "Only rules that admit this action, as \"taking the ball\"; \"taking\" alone stands for any noun",
                ),
        )?
        .arg(
            Arg::new(alloc, "in")
                .long("in")
                .value_name("ROOM")
                .action(ArgAction::Set)
                .help("Only rules that admit this room, as \"the Hall\""),
        )
}

/// The form that writes a story's index.
fn indexing<'a>(alloc: Global) -> Result<Command<'a>, AllocError> {
    Command::new(alloc, "index")
        .about(
            "Writes the index of a source: a page with its map, its world, kinds, actions, rules and words",
        )
        .after_help("Example: i7story index stories/museum.i7 -o museum.html")
        .arg(file(
            alloc,
            "SOURCE",
            "The source, a text as stories/two-rooms.i7 is one; - is standard input",
        ))?
        .arg(
            Arg::new(alloc, "output")
                .short('o')
                .long("output")
                .value_name("FILE")
                .action(ArgAction::Set)
                .help("Writes the page to FILE; without it the page goes to standard output"),
        )?
        .arg(
            Arg::new(alloc, "source")
                .long("source")
                .action(ArgAction::SetTrue)
                .help("Adds the source itself, its lines numbered, to which entries lead"),
        )
}

/// The form that tries kept transcripts.
fn testing<'a>(alloc: Global) -> Result<Command<'a>, AllocError> {
    let transcripts =
        "Transcripts that were kept, as --transcript writes them; in front of each may stand lines of comments, `* ` and any text";
    Command::new(alloc, "test")
        .about("Compares what a story says with transcripts that were kept")
        .after_help("Example: i7story test stories/ferry.i7 ferry.txt")
        .arg(file(alloc, "STORY", "The story file, or its source"))?
        .arg(file(alloc, "TRANSCRIPT", transcripts).num_args(1..))?
        .arg(
            Arg::new(alloc, "all")
                .long("all")
                .action(ArgAction::SetTrue)
                .help("Shows each answer that differs, and not the first of a file alone"),
        )?
        .arg(
            Arg::new(alloc, "bless")
                .long("bless")
                .action(ArgAction::SetTrue)
                .help("Writes a file that differs anew, with what the story says now"),
        )
}

/// The form that plays a story file.
fn play_form<'a>(alloc: Global) -> Result<Command<'a>, AllocError> {
    let story =
        "The story file, as the form compile writes it; with --commands, - is standard input";
    let play = Command::new(alloc, "play")
        .about("Plays a story file: reads commands and writes what is answered")
        .after_help("Example: i7story play ferry.story --transcript");
    with_commands(play, alloc, file(alloc, "STORY", story))
}

/// The form that plays a source.
fn run_form<'a>(alloc: Global) -> Result<Command<'a>, AllocError> {
    let source =
        "The source, a text as stories/two-rooms.i7 is one; with --commands, - is standard input";
    let run = Command::new(alloc, "run")
        .about("Plays a source, as its story file is played")
        .after_help("Example: i7story run stories/two-rooms.i7");
    with_commands(run, alloc, file(alloc, "SOURCE", source))
}

/// The program with one form more. That no other value waits for the form keeps this, and who calls it, short to prove.
fn with_form<'a>(
    program: Command<'a>,
    form: Result<Command<'a>, AllocError>,
) -> Result<Command<'a>, AllocError> {
    match form {
        Ok(form) => program.subcommand(form),
        Err(refused) => {
            drop(program);
            Err(refused)
        }
    }
}

/// The forms of the program.
fn forms<'a>(alloc: Global) -> Result<Command<'a>, AllocError> {
    let program = Command::new(alloc, "i7story")
        .about("Compiles and plays stories that are written in a profile of Inform 7")
        .after_help("Example: i7story run stories/two-rooms.i7, and then type: look")
        .subcommand_required(true);
    let program = with_form(program, compiling(alloc))?;
    let program = with_form(program, indexing(alloc))?;
    let program = with_form(program, play_form(alloc))?;
    let program = with_form(program, listing(alloc))?;
    let program = with_form(program, run_form(alloc))?;
    with_form(program, testing(alloc))
}

/// How the words of a form tell to play.
fn playing_in<'a>(found: &ArgMatches<'a>) -> Playing<'a> {
    Playing {
        commands: found.get_str("commands"),
        transcript: found.contains_id("transcript") && found.get_flag("transcript"),
    }
}

/// The transcripts that the words of a form name.
fn transcripts_in<'a>(alloc: Global, found: &ArgMatches<'a>) -> Result<Vec<&'a str>, AllocError> {
    let mut transcripts = Vec::new(alloc);
    if let Some(paths) = found.get_strs("TRANSCRIPT") {
        transcripts.extend_from_slice(paths)?;
    }
    Ok(transcripts)
}

/// The order in the words of a form, if its files are named.
fn order_of<'a>(
    name: &str,
    found: &ArgMatches<'a>,
    transcripts: Vec<&'a str>,
) -> Option<Order<'a>> {
    match name {
        "compile" => Some(Order::Compile {
            source: found.get_str("SOURCE")?,
            story: found.get_str("STORY")?,
        }),
        "index" => Some(Order::Index {
            source: found.get_str("SOURCE")?,
            page: found.get_str("output"),
            with_source: found.get_flag("source"),
        }),
        "play" => Some(Order::Play {
            story: found.get_str("STORY")?,
            playing: playing_in(found),
        }),
        "rules" => Some(Order::Rules {
            source: found.get_str("SOURCE")?,
            words: Words {
                action: found.get_str("for"),
                room: found.get_str("in"),
            },
        }),
        "run" => Some(Order::Run {
            source: found.get_str("SOURCE")?,
            playing: playing_in(found),
        }),
        "test" => Some(Order::Test {
            story: found.get_str("STORY")?,
            transcripts,
            how: Trying {
                all: found.get_flag("all"),
                bless: found.get_flag("bless"),
            },
        }),
        _ => None,
    }
}

/// The order in the words that were found.
fn order_in<'a>(alloc: Global, matches: &ArgMatches<'a>) -> Result<Option<Order<'a>>, AllocError> {
    let Some((name, found)) = matches.subcommand() else {
        return Ok(None);
    };
    let transcripts = transcripts_in(alloc, found)?;
    Ok(order_of(name, found, transcripts))
}

/// What clap says of faulty words, or of a request for help.
fn refusal<'a>(alloc: Global, error: &Error) -> ProgramFault<'a> {
    if error.kind() == ErrorKind::OutOfMemory {
        return ProgramFault::Memory;
    }
    match format!(in alloc; "{error}") {
        Ok(text) => ProgramFault::Words(text),
        Err(_) => ProgramFault::Memory,
    }
}

/// Words that are faulty as this sentence says.
pub fn faulty<'a>(alloc: Global, sentence: &str) -> ProgramFault<'a> {
    match String::from_str(alloc, sentence) {
        Ok(text) => ProgramFault::Words(text),
        Err(_) => ProgramFault::Memory,
    }
}

/// A word of the program that can't be read is a faulty word.
pub fn unreadable<'a>(alloc: Global) -> ProgramFault<'a> {
    faulty(alloc, "i7story: a word that isn't UTF-8\n")
}

/// What the words tell the program to do.
pub fn told<'a>(rt: &HostRuntime, words: &'a [String]) -> Result<Order<'a>, ProgramFault<'a>> {
    let alloc = rt.alloc();
    let forms = forms(alloc).map_err(|_| ProgramFault::Memory)?;
    match forms.try_get_matches_from(words) {
        Ok(matches) => match order_in(alloc, &matches) {
            Ok(Some(order)) => Ok(order),
            Ok(None) => Err(unreadable(alloc)),
            Err(_) => Err(ProgramFault::Memory),
        },
        Err(error) => Err(refusal(alloc, &error)),
    }
}
