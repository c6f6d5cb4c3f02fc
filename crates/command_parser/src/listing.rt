//! The candidates of each slot of a line, listed: of the first way to part a command's words among its tokens that leaves no
//! slot without a candidate.
ghost use Rattle.std.specs.Prelude.{◌≡◌, ◌∷◌, ◌++◌, [], ℕ, Bool, IfOk, OnOk, filter, if◌then◌else◌};
ghost use Rattle.std.specs.Option.{option_map};
ghost use Rattle.play_meaning.specs.Grammar.{Grammar, candidates};
ghost use Rattle.play_meaning.specs.Settings.{objects_of};
ghost use Rattle.command_parser.specs.Fillings.{is_candidate};
ghost use Rattle.command_parser.specs.Searching.{filled_on, first_filled, in_front, phrase_filled, slot_from, word_filled};
ghost use Rattle.command_grammar.specs.Lines.{told_token};
ghost use Rattle.command_parser.specs.Tokens.{tokens_from};
ghost use Rattle.command_parser.specs.Typed.{typed};

use crate::candidates::is_candidate;
use crate::fitting::{behind_word, fits};
use crate::next_token::next_token;
use crate::words::noun_of;
use crate::{Commands, Objects};
use command_grammar::Token;
use std::alloc::{AllocError, Global};
use world_meaning::ObjNo;

/// An object behind others, if it is one of them.
pub(crate) fn add_if(
    objects: &mut Vec<ObjNo>,
    is_one: bool,
    object: ObjNo,
) -> Result<(), AllocError>
    ensures { OnOk result (objects.new.items ≡ (if is_one then objects.old.items ++ object ∷ [] else objects.old.items)) }
{
    if is_one {
        objects.push(object)?;
    }
    Ok(())
}

/// The objects that a slot's noun may mean.
fn meant<C: Commands>(
    alloc: Global,
    commands: &C,
    slot: Token<'_>,
    noun: &[&[u8]],
) -> Result<Vec<ObjNo>, AllocError>
    ensures { IfOk result (λ objects. objects.items ≡ filter (is_candidate (C.grammar commands.now) (C.sees commands.now) (told_token slot.entry) (typed noun.now))
        (objects_of (C.grammar commands.now).setting)) }
{
    let mut objects = Vec::new(alloc);
    let count = commands.object_count();
    for number in 0..count {
        let object = ObjNo::new(number);
        let is_one = is_candidate(commands, slot, noun, object);
        add_if(&mut objects, is_one, object)?;
    }
    Ok(objects)
}

/// The objects that a slot's phrase may mean.
fn listed<C: Commands>(
    alloc: Global,
    commands: &C,
    slot: Token<'_>,
    phrase: &[&[u8]],
) -> Result<Vec<ObjNo>, AllocError>
    ensures { IfOk result (λ objects. objects.items ≡ candidates (C.grammar commands.now) (C.sees commands.now) (told_token slot.entry) (typed phrase.now)) }
{
    Ok(meant(alloc, commands, slot, noun_of(phrase))?)
}

/// A slot's candidates in front of those of the slots behind it, if each has one.
fn in_front(
    objects: Vec<ObjNo>,
    behind: Option<Vec<Objects>>,
) -> Result<Option<Vec<Objects>>, AllocError>
    ensures { IfOk result (λ found. option_map (λ slots. slots.items) found ≡ in_front objects.items (option_map (λ slots. slots.items) behind)) }
{
    if objects.is_empty() {
        return Ok(None);
    }
    match behind {
        None => Ok(None),
        Some(mut slots) => {
            slots.insert(0, Objects::new(objects))?;
            Ok(Some(slots))
        }
    }
}

/// The candidates of the slots of a line from a place on.
#[cycle(listing)]
pub(crate) fn slots<C: Commands>(
    alloc: Global,
    commands: &C,
    line: u16,
    place: usize,
    words: &[&[u8]],
) -> Result<Option<Vec<Objects>>, AllocError>
    ensures { IfOk result (λ found. option_map (λ slots. slots.items) found
        ≡ first_filled (C.grammar commands.now) (C.sees commands.now) (tokens_from (C.grammar commands.now) line place) (typed words.now)) }
{
    match next_token(commands, line, place) {
        None => Ok(no_slots(alloc, words)),
        Some((token, after)) => Ok(token_slots(alloc, commands, line, token, after, words)?),
    }
}

/// At the end of a line nothing may be left.
fn no_slots(alloc: Global, words: &[&[u8]]) -> Option<Vec<Objects>>
    ensures { (g : Grammar) (sees : ℕ → Bool) → option_map (λ slots. slots.items) result ≡ first_filled g sees [] (typed words.now) }
{
    match words {
        [] => Some(Vec::new(alloc)),
        [_, ..] => None,
    }
}

/// Those of a token and of the tokens behind it.
#[cycle(listing)]
fn token_slots<C: Commands>(
    alloc: Global,
    commands: &C,
    line: u16,
    token: Token<'_>,
    after: usize,
    words: &[&[u8]],
) -> Result<Option<Vec<Objects>>, AllocError>
    ensures { IfOk result (λ found. option_map (λ slots. slots.items) found
        ≡ filled_on (C.grammar commands.now) (C.sees commands.now) (told_token token.entry) line after (typed words.now)) }
{
    match token {
        Token::Word(spelling) => Ok(word_slots(alloc, commands, line, spelling, after, words)?),
        Token::Something => Ok(slot_slots(alloc, commands, line, token, after, words)?),
        Token::Direction => Ok(slot_slots(alloc, commands, line, token, after, words)?),
    }
}

/// Those of the tokens behind a word.
#[cycle(listing)]
fn word_slots<C: Commands>(
    alloc: Global,
    commands: &C,
    line: u16,
    spelling: &[u8],
    after: usize,
    words: &[&[u8]],
) -> Result<Option<Vec<Objects>>, AllocError>
    ensures { IfOk result (λ found. option_map (λ slots. slots.items) found
        ≡ word_filled (C.grammar commands.now) (C.sees commands.now) spelling.now line after (typed words.now)) }
{
    match behind_word(words, spelling) {
        None => Ok(None),
        Some(rest) => Ok(slots(alloc, commands, line, after, rest)?),
    }
}

/// Those of a slot and of the tokens behind it.
#[cycle(listing)]
fn slot_slots<C: Commands>(
    alloc: Global,
    commands: &C,
    line: u16,
    slot: Token<'_>,
    after: usize,
    words: &[&[u8]],
) -> Result<Option<Vec<Objects>>, AllocError>
    ensures { IfOk result (λ found. option_map (λ slots. slots.items) found
        ≡ slot_from (C.grammar commands.now) (C.sees commands.now) (told_token slot.entry) line after (typed words.now)) }
{
    let mut count = 0;
    let mut rest = words;
    while let [_, behind @ ..] = rest {
        count += 1;
        let (phrase, _) = words.split_at(count);
        match phrase_slots(alloc, commands, line, slot, after, phrase, behind)? {
            Some(found) => return Ok(Some(found)),
            None => rest = behind,
        }
    }
    Ok(None)
}

/// Those of a slot's phrase, and of the words behind it among the tokens behind the slot.
#[cycle(listing)]
fn phrase_slots<C: Commands>(
    alloc: Global,
    commands: &C,
    line: u16,
    slot: Token<'_>,
    after: usize,
    phrase: &[&[u8]],
    behind: &[&[u8]],
) -> Result<Option<Vec<Objects>>, AllocError>
    ensures { IfOk result (λ found. option_map (λ slots. slots.items) found
        ≡ phrase_filled (C.grammar commands.now) (C.sees commands.now) (told_token slot.entry) (typed phrase.now) line after (typed behind.now)) }
{
    if !fits(commands, line, after, behind) {
        return Ok(None);
    }
    let objects = listed(alloc, commands, slot, phrase)?;
    let others = slots(alloc, commands, line, after, behind)?;
    Ok(in_front(objects, others)?)
}
