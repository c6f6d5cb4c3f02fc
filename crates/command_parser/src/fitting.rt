//! Whether the words of a command can be parted among the tokens of a line, each slot taking one or more.
ghost use Rattle.std.specs.Prelude.{◌≡◌, ◌∷◌, map};
ghost use Rattle.std.specs.Option.{option_map};
ghost use Rattle.command_parser.specs.Searching.{behind_word, fits, fits_at, slot_fits};
ghost use Rattle.command_grammar.specs.Lines.{told_token};
ghost use Rattle.command_parser.specs.Tokens.{tokens_from};
ghost use Rattle.command_parser.specs.Typed.{typed};

use crate::Commands;
use crate::next_token::next_token;
use command_grammar::Token;
use world_meaning::is_spelled;

/// The words behind the first, if that is spelled so.
pub(crate) fn behind_word<'a, 'b>(words: &'b [&'a [u8]], spelling: &[u8]) -> Option<&'b [&'a [u8]]>
    ensures { option_map (λ rest. map (λ word. word.now) rest.now) result ≡ behind_word spelling.now (typed words.now) }
{
    match words {
        [word, rest @ ..] if is_spelled(word, spelling) => Some(rest),
        _ => None,
    }
}

/// Whether the words can be parted among the tokens of a line from a place on.
#[cycle(fitting)]
pub(crate) fn fits<C: Commands>(commands: &C, line: u16, place: usize, words: &[&[u8]]) -> bool
    ensures { result ≡ fits (tokens_from (C.grammar commands.now) line place) (typed words.now) }
{
    match next_token(commands, line, place) {
        None => words.is_empty(),
        Some((token, after)) => token_fits(commands, line, token, after, words),
    }
}

/// Whether they can among a token and those behind it.
#[cycle(fitting)]
fn token_fits<C: Commands>(
    commands: &C,
    line: u16,
    token: Token<'_>,
    after: usize,
    words: &[&[u8]],
) -> bool
    ensures { result ≡ fits (told_token token.entry ∷ tokens_from (C.grammar commands.now) line after) (typed words.now) }
{
    match token {
        Token::Word(spelling) => word_fits(commands, line, spelling, after, words),
        Token::Something => slot_fits(commands, line, after, words),
        Token::Direction => slot_fits(commands, line, after, words),
    }
}

/// Whether they can among a word and the tokens behind it.
#[cycle(fitting)]
fn word_fits<C: Commands>(
    commands: &C,
    line: u16,
    spelling: &[u8],
    after: usize,
    words: &[&[u8]],
) -> bool
    ensures { result ≡ fits_at (fits (tokens_from (C.grammar commands.now) line after)) (behind_word spelling.now (typed words.now)) }
{
    match behind_word(words, spelling) {
        None => false,
        Some(rest) => fits(commands, line, after, rest),
    }
}

/// Whether they can among a slot and the tokens behind it.
#[cycle(fitting)]
fn slot_fits<C: Commands>(commands: &C, line: u16, after: usize, words: &[&[u8]]) -> bool
    ensures { result ≡ slot_fits (fits (tokens_from (C.grammar commands.now) line after)) (typed words.now) }
{
    let mut rest = words;
    while let [_, behind @ ..] = rest {
        if fits(commands, line, after, behind) {
            return true;
        }
        rest = behind;
    }
    false
}
