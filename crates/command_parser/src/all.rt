//! Whether a line for taking or dropping a thing is said of all things: `all` or `everything` stands in the place of its slot.
ghost use Rattle.std.specs.Prelude.{◌≡◌};
ghost use Rattle.play_meaning.specs.Commands.{is_all, means_all, stand_at, stands_at, takes_all};
ghost use Rattle.command_grammar.specs.Lines.{told_token};
ghost use Rattle.command_parser.specs.Alls.{is_one_thing_behind};
ghost use Rattle.command_parser.specs.Tokens.{line_at, tokens_from};
ghost use Rattle.command_parser.specs.Typed.{typed};

use crate::Commands;
use crate::next_token::next_token;
use command_grammar::Token;
use play_meaning::ActNo;
use play_meaning::standard_actions::{DROPPING, TAKING};
use world_meaning::is_spelled;

/// Whether an action can be done to things all at once.
fn takes_all(action: ActNo) -> bool
    ensures { result ≡ takes_all action }
{
    action.get() == TAKING || action.get() == DROPPING
}

/// Whether a word means all things.
fn is_all(word: &[u8]) -> bool
    ensures { result ≡ is_all word.now }
{
    is_spelled(word, b"all") || is_spelled(word, b"everything")
}

/// Whether a word stands at a token: it is the token's, or means all things where the token is a slot for one.
fn stands_at(token: Token<'_>, word: &[u8]) -> bool
    ensures { result ≡ stands_at (told_token token.entry) word.now }
{
    match token {
        Token::Word(spelling) => is_spelled(word, spelling),
        Token::Something => is_all(word),
        Token::Direction => false,
    }
}

/// Whether each of the words stands at a token of a line from a place on, and each of these tokens has a word.
fn stand_at<C: Commands>(commands: &C, line: u16, place: usize, words: &[&[u8]]) -> bool
    ensures { result ≡ stand_at (tokens_from (C.grammar commands.now) line place) (typed words.now) }
{
    match next_token(commands, line, place) {
        None => words.is_empty(),
        Some((token, after)) => match words {
            [] => false,
            [word, rest @ ..] => stands_at(token, word) && stand_at(commands, line, after, rest),
        },
    }
}

/// Whether a line has one slot, which is for a thing: from a place on, or in front of it, where it was found already.
fn is_one_thing_behind<C: Commands>(commands: &C, line: u16, place: usize, found: bool) -> bool
    ensures { result ≡ is_one_thing_behind found (tokens_from (C.grammar commands.now) line place) }
{
    match next_token(commands, line, place) {
        None => found,
        Some((token, after)) => match token {
            Token::Word(_) => is_one_thing_behind(commands, line, after, found),
            Token::Something => !found && is_one_thing_behind(commands, line, after, true),
            Token::Direction => false,
        },
    }
}

/// Whether the words are those of a line for taking or dropping a thing, with `all` or `everything` in the place of its slot.
#[tactic(auto, using(crate::proofs::OneThing::one_thing_is))]
pub(crate) fn means_all<C: Commands>(commands: &C, line: u16, words: &[&[u8]]) -> bool
    ensures { result ≡ means_all (typed words.now) (line_at (C.grammar commands.now) line) }
{
    takes_all(commands.action(line))
        && is_one_thing_behind(commands, line, 0, false)
        && stand_at(commands, line, 0, words)
}
