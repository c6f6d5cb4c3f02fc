//! What is said to a command that no line of the grammar reads.
ghost use Rattle.std.specs.Prelude.{◌≡◌};
ghost use Rattle.std.specs.List.{list_any};
ghost use Rattle.play_meaning.specs.Commands.{begins_so};
ghost use Rattle.command_parser.specs.Commanding.{line_begins, line_fits, unread_by, unread_text};
ghost use Rattle.command_parser.specs.Readings.{said_text};
ghost use Rattle.command_grammar.specs.Lines.{told_token};
ghost use Rattle.command_parser.specs.Tokens.{line_at};
ghost use Rattle.command_parser.specs.Typed.{typed};

use crate::fitting::fits;
use crate::next_token::next_token;
use crate::{Commands, Said};
use command_grammar::Token;
use world_meaning::is_spelled;

/// Whether a token is the word, whatever the case of its letters.
fn begins_so(verb: &[u8], token: Token<'_>) -> bool
    ensures { result ≡ begins_so verb.now (told_token token.entry) }
{
    match token {
        Token::Word(spelling) => is_spelled(verb, spelling),
        Token::Something => false,
        Token::Direction => false,
    }
}

/// Whether a line begins with the word.
fn line_begins<C: Commands>(commands: &C, verb: &[u8], line: u16) -> bool
    ensures { result ≡ line_begins verb.now (line_at (C.grammar commands.now) line) }
{
    match next_token(commands, line, 0) {
        None => false,
        Some((token, _)) => begins_so(verb, token),
    }
}

/// Whether a line begins with the word and has a way to part the words.
fn line_fits<C: Commands>(commands: &C, verb: &[u8], words: &[&[u8]], line: u16) -> bool
    ensures { result ≡ line_fits verb.now (typed words.now) (line_at (C.grammar commands.now) line) }
{
    line_begins(commands, verb, line) && fits(commands, line, 0, words)
}

/// Whether any line begins with the word.
fn any_begins<C: Commands>(commands: &C, verb: &[u8]) -> bool
    ensures { result ≡ list_any (line_begins verb.now) (C.grammar commands.now).lines }
{
    let count = commands.line_count();
    for line in 0..count {
        if line_begins(commands, verb, line) {
            return true;
        }
    }
    false
}

/// Whether any line begins with the word and has a way to part the words.
fn any_fits<C: Commands>(commands: &C, verb: &[u8], words: &[&[u8]]) -> bool
    ensures { result ≡ list_any (line_fits verb.now (typed words.now)) (C.grammar commands.now).lines }
{
    let count = commands.line_count();
    for line in 0..count {
        if line_fits(commands, verb, words, line) {
            return true;
        }
    }
    false
}

/// What is said by whether any line begins so, and whether one of these has a way to part the words.
fn unread_by(known: bool, fitting: bool) -> Said
    ensures { said_text result ≡ unread_by known fitting }
{
    if !known {
        Said::NoVerb
    } else if fitting {
        Said::NotSeen
    } else {
        Said::NotUnderstood
    }
}

/// What is said to the words of a command that no line reads.
pub(crate) fn unread<C: Commands>(commands: &C, words: &[&[u8]]) -> Said
    ensures { said_text result ≡ unread_text (C.grammar commands.now) (typed words.now) }
{
    match words {
        [] => Said::NoVerb,
        [verb, ..] => unread_by(any_begins(commands, verb), any_fits(commands, verb, words)),
    }
}
