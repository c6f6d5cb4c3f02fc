//! The tokens of a line, one behind the other.
ghost use Rattle.std.specs.Prelude.{◌≡◌, [], MatchOption};
ghost use Rattle.command_grammar.specs.Lines.{told_token};
ghost use Rattle.command_parser.specs.Tokens.{IsNext, tokens_from};

use crate::Commands;
use command_grammar::Token;

/// The token at a place of a line, and the place behind it.
pub(crate) fn next_token<C: Commands>(
    commands: &C,
    line: u16,
    place: usize,
) -> Option<(Token<'_>, usize)>
    ensures { MatchOption result (tokens_from (C.grammar commands.now) line place ≡ [])
        (λ next. IsNext (C.grammar commands.now) line place (told_token next.0) next.1) }
{
    if place >= commands.token_count(line) {
        return None;
    }
    match commands.token(line, place) {
        Some(token) => Some((token, place + 1)),
        None => None,
    }
}
