//! The first way to part a command's words among the tokens of a line that leaves no slot without a candidate, and what
//! comes of it: each slot tries the fewest words first. Nothing is listed, and no memory taken.
ghost use Rattle.std.specs.Prelude.{◌≡◌, [], ℕ, Bool};
ghost use Rattle.play_meaning.specs.Grammar.{Grammar};
ghost use Rattle.command_parser.specs.Searching.{filled_on, first_filled, phrase_filled, slot_from, word_filled};
ghost use Rattle.command_parser.specs.Settling.{asks_unless, comes_to, with_noun};
ghost use Rattle.command_grammar.specs.Lines.{told_token};
ghost use Rattle.command_parser.specs.Tokens.{tokens_from};
ghost use Rattle.command_parser.specs.Typed.{typed};

use crate::Commands;
use crate::candidates::{are_candidates_alike, first_candidate};
use crate::filling::Outcome;
use crate::fitting::{behind_word, fits};
use crate::next_token::next_token;
use crate::words::noun_of;
use command_grammar::Token;
use play_meaning::ActionNow;
use world_meaning::ObjNo;

/// The action with one noun more: its first, else its second, else none of its own.
pub(crate) fn with_noun(now: ActionNow, object: ObjNo) -> ActionNow
    ensures { result ≡ with_noun now object }
{
    let ActionNow {
        action,
        noun,
        second,
        silent,
    } = now;
    match noun {
        None => ActionNow {
            action,
            noun: Some(object),
            second,
            silent,
        },
        Some(_) => ActionNow {
            action,
            noun,
            second: Some(second.unwrap_or(object)),
            silent,
        },
    }
}

/// Where not all candidates of a slot are named alike, it is asked which is meant.
fn asks_unless(alike: bool, later: Outcome) -> Outcome
    ensures { result ≡ asks_unless alike later }
{
    if alike { later } else { Outcome::Asks }
}

/// What comes of the words among the tokens of a line from a place on, for an action that has its nouns so far.
#[cycle(searching)]
pub(crate) fn search<C: Commands>(
    commands: &C,
    now: &ActionNow,
    line: u16,
    place: usize,
    words: &[&[u8]],
) -> Option<Outcome>
    ensures { result ≡ comes_to (C.grammar commands.now) now.now
        (first_filled (C.grammar commands.now) (C.sees commands.now) (tokens_from (C.grammar commands.now) line place) (typed words.now)) }
{
    match next_token(commands, line, place) {
        None => search_end(now, words),
        Some((token, after)) => search_token(commands, now, line, token, after, words),
    }
}

/// At the end of a line nothing may be left.
fn search_end(now: &ActionNow, words: &[&[u8]]) -> Option<Outcome>
    ensures { (g : Grammar) (sees : ℕ → Bool) → result ≡ comes_to g now.now (first_filled g sees [] (typed words.now)) }
{
    match words {
        [] => Some(Outcome::Acts(*now)),
        [_, ..] => None,
    }
}

/// What comes of them among a token and those behind it.
#[cycle(searching)]
fn search_token<C: Commands>(
    commands: &C,
    now: &ActionNow,
    line: u16,
    token: Token<'_>,
    after: usize,
    words: &[&[u8]],
) -> Option<Outcome>
    ensures { result ≡ comes_to (C.grammar commands.now) now.now
        (filled_on (C.grammar commands.now) (C.sees commands.now) (told_token token.entry) line after (typed words.now)) }
{
    match token {
        Token::Word(spelling) => search_word(commands, now, line, spelling, after, words),
        Token::Something => search_slot(commands, now, line, token, after, words),
        Token::Direction => search_slot(commands, now, line, token, after, words),
    }
}

/// What comes of them among a word and the tokens behind it.
#[cycle(searching)]
fn search_word<C: Commands>(
    commands: &C,
    now: &ActionNow,
    line: u16,
    spelling: &[u8],
    after: usize,
    words: &[&[u8]],
) -> Option<Outcome>
    ensures { result ≡ comes_to (C.grammar commands.now) now.now
        (word_filled (C.grammar commands.now) (C.sees commands.now) spelling.now line after (typed words.now)) }
{
    match behind_word(words, spelling) {
        None => None,
        Some(rest) => search(commands, now, line, after, rest),
    }
}

/// What comes of them among a slot and the tokens behind it.
#[cycle(searching)]
fn search_slot<C: Commands>(
    commands: &C,
    now: &ActionNow,
    line: u16,
    slot: Token<'_>,
    after: usize,
    words: &[&[u8]],
) -> Option<Outcome>
    ensures { result ≡ comes_to (C.grammar commands.now) now.now
        (slot_from (C.grammar commands.now) (C.sees commands.now) (told_token slot.entry) line after (typed words.now)) }
{
    let mut count = 0;
    let mut rest = words;
    while let [_, behind @ ..] = rest {
        count += 1;
        let (phrase, _) = words.split_at(count);
        let found = search_phrase(commands, now, line, slot, after, phrase, behind);
        if found.is_some() {
            return found;
        }
        rest = behind;
    }
    None
}

/// What comes of a slot's phrase, and of the words behind it among the tokens behind the slot. No object is looked for where
/// these can't be parted so, and whether all candidates are named alike only where each slot has one.
#[cycle(searching)]
fn search_phrase<C: Commands>(
    commands: &C,
    now: &ActionNow,
    line: u16,
    slot: Token<'_>,
    after: usize,
    phrase: &[&[u8]],
    behind: &[&[u8]],
) -> Option<Outcome>
    ensures { result ≡ comes_to (C.grammar commands.now) now.now
        (phrase_filled (C.grammar commands.now) (C.sees commands.now) (told_token slot.entry) (typed phrase.now) line after (typed behind.now)) }
{
    if !fits(commands, line, after, behind) {
        return None;
    }
    let noun = noun_of(phrase);
    match first_candidate(commands, slot, noun) {
        None => None,
        Some(first) => {
            let next = with_noun(*now, first);
            match search(commands, &next, line, after, behind) {
                None => None,
                Some(later) => {
                    let alike = are_candidates_alike(commands, slot, noun, first);
                    Some(asks_unless(alike, later))
                }
            }
        }
    }
}
