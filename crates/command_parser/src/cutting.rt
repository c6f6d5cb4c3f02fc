//! A typed line is cut into commands, at each full stop and at each word `then`.
ghost use Rattle.std.specs.Prelude.{◌≡◌, ◌<◌, ◌≤◌, [], ◌∷◌, length, MatchOption};
ghost use Rattle.std.specs.List.{position_or_len};
ghost use Rattle.std.specs.Iterator.{YieldsFirst, item_count};
ghost use Rattle.world_meaning.specs.Reading.{is_blank, words_of};
ghost use Rattle.play_meaning.specs.CommandLines.{commands_of, has_words, is_too_long, parts_of};
ghost use Rattle.command_parser.specs.Cutting.{command_count, ends_word, is_cut, mark_len, told_parts};
ghost use Rattle.command_parser.specs.Scanning.{is_there};

use crate::command_scan::ends_word;
use crate::typed_command::MOST_WORDS;
use crate::{Command, CommandScan};
use std::marker::Model;

/// What a line is made of.
#[derive(Drop)]
pub enum Parts<'a> {
    /// No command.
    Blank,
    /// More than 255 bytes, or than 32 words.
    Overlong,
    /// A command, and those behind it.
    Commands(Command<'a>, Pieces<'a>),
}

/// The commands of a line that are left.
#[derive(Drop)]
pub struct Pieces<'a> {
    rest: &'a [u8],
}

impl<'a> Model for Pieces<'a> {
    ghost use Rattle.std.specs.Prelude.{List, ℕ, ◌≤◌, length};
    ghost use Rattle.world_meaning.specs.Reading.{words_of};
    ghost use Rattle.play_meaning.specs.CommandLines.{commands_of};

    ghost Value = { List (List (List ℕ)) };

    ghost view = { λ pieces. commands_of pieces.rest.now };

    ghost invariant = { λ pieces. length (words_of pieces.rest.now) ≤ 32 };
}

/// Whether the byte parts words.
fn is_blank(byte: u8) -> bool
    ensures { result ≡ is_blank byte }
{
    byte == b' ' || byte == b'\t'
}

/// The number of bytes of the word in front.
fn word_len(line: &[u8]) -> usize
    ensures place { result ≡ position_or_len ends_word line.now }
    ensures within { result ≤ length line.now }
{
    let mut count = 0;
    let mut rest = line;
    while let [first, after @ ..] = rest {
        if ends_word(*first) {
            return count;
        }
        count += 1;
        rest = after;
    }
    count
}

/// The number of bytes of the full stop or the word in front.
fn mark_len(line: &[u8]) -> usize
    ensures place { result ≡ mark_len line.now }
    ensures within { result ≤ length line.now }
{
    match line {
        [b'.', ..] => 1,
        _ => word_len(line),
    }
}

/// Whether a full stop, or a word, cuts.
fn is_cut(mark: &[u8]) -> bool
    ensures { result ≡ is_cut mark.now }
{
    match mark {
        [] => false,
        [b'.', ..] => true,
        _ => mark.eq_ignore_ascii_case(b"then"),
    }
}

/// Whether a command has a word.
fn has_words(command: &Command<'_>) -> bool
    ensures { result ≡ has_words command.now }
{
    match command.words() {
        [] => false,
        _ => true,
    }
}

/// The first command, and the line behind it.
fn first_command<'a>(line: &'a [u8]) -> Option<(Command<'a>, &'a [u8])>
    requires { length (words_of line.now) ≤ MOST_WORDS }
    ensures { MatchOption result (commands_of line.now ≡ [])
        (λ first. (commands_of line.now ≡ first.0 ∷ commands_of first.1.now) × (length (words_of first.1.now) ≤ MOST_WORDS)) }
{
    let mut command = Command::new();
    let mut rest = line;
    while let [first, after @ ..] = rest {
        if is_blank(*first) {
            rest = after;
        } else {
            let (mark, behind) = rest.split_at(mark_len(rest));
            rest = behind;
            if is_cut(mark) {
                if has_words(&command) {
                    return Some((command, rest));
                }
            } else {
                command.push(mark);
            }
        }
    }
    if has_words(&command) {
        Some((command, rest))
    } else {
        None
    }
}

impl<'a> Iterator for Pieces<'a> {
    type Item = Command<'a>;

    ghost next_gives = { YieldsFirst (λ s. s) };

    ghost remaining = { item_count (λ s. s) };

    fn next(&mut self) -> Option<Command<'a>> {
        let (command, rest) = first_command(self.rest)?;
        self.rest = rest;
        Some(command)
    }
}

/// The number of words that blanks part.
fn word_count(line: &[u8]) -> usize
    ensures { result ≡ length (words_of line.now) }
{
    let mut count = 0;
    let mut in_word = false;
    let mut rest = line;
    while let [first, after @ ..] = rest {
        let blank = is_blank(*first);
        if !blank && !in_word {
            count += 1;
        }
        in_word = !blank;
        rest = after;
    }
    count
}

/// Whether a line has more than 255 bytes, or than 32 words.
fn is_too_long(line: &[u8]) -> bool
    ensures { result ≡ is_too_long line.now }
{
    line.len() > 255 || word_count(line) > MOST_WORDS
}

/// Whether a line has a command.
#[tactic(auto, using(crate::proofs::Scanning::scan_tells))]
fn has_command(line: &[u8]) -> bool
    ensures { result ≡ is_there (commands_of line.now) }
{
    CommandScan::new().over(line).has_command()
}

/// What a line is made of. It takes no memory.
#[tactic(auto, using(crate::proofs::Scanning::blank_so, crate::proofs::Scanning::overlong_so, crate::proofs::Counts::few_so))]
pub fn split(line: &[u8]) -> Parts<'_>
    ensures parts { told_parts result ≡ parts_of line.now }
    ensures few { command_count result ≤ 128 }
{
    if is_too_long(line) {
        if has_command(line) {
            return Parts::Overlong;
        }
        return Parts::Blank;
    }
    match first_command(line) {
        None => Parts::Blank,
        Some((command, rest)) => Parts::Commands(command, Pieces { rest }),
    }
}
