//! Which objects a slot's phrase may mean, and whether one of them is meant. Nothing is listed, and no memory taken.
ghost use Rattle.std.specs.Prelude.{◌≡◌, find};
ghost use Rattle.std.specs.List.{list_all};
ghost use Rattle.play_meaning.specs.Grammar.{are_named_alike, goes_by, has_word};
ghost use Rattle.play_meaning.specs.Settings.{objects_of};
ghost use Rattle.command_parser.specs.Fillings.{are_alike, filling_by, is_alike_if, is_candidate, is_meant};
ghost use Rattle.command_parser.specs.Typed.{typed};
ghost use Rattle.command_grammar.specs.Lines.{told_token};

use crate::Commands;
use crate::filling::Filling;
use command_grammar::Token;
use world_meaning::{KindNo, ObjNo};

/// Whether an object goes by each of these words.
fn goes_by<C: Commands>(commands: &C, object: ObjNo, words: &[&[u8]]) -> bool
    ensures { result ≡ goes_by (C.grammar commands.now) (typed words.now) object }
{
    let mut rest = words;
    while let [word, after @ ..] = rest {
        if !commands.has_word(object, word) {
            return false;
        }
        rest = after;
    }
    true
}

/// Whether an object goes by the words of a noun, which has one at least.
pub(crate) fn is_meant<C: Commands>(commands: &C, noun: &[&[u8]], object: ObjNo) -> bool
    ensures { result ≡ is_meant (C.grammar commands.now) (typed noun.now) object }
{
    match noun {
        [] => false,
        [_, ..] => goes_by(commands, object, noun),
    }
}

/// Whether a slot's noun may mean an object. Whether it is seen is asked last: few objects are looked for.
pub(crate) fn is_candidate<C: Commands>(
    commands: &C,
    slot: Token<'_>,
    noun: &[&[u8]],
    object: ObjNo,
) -> bool
    ensures { result ≡ is_candidate (C.grammar commands.now) (C.sees commands.now) (told_token slot.entry) (typed noun.now) object }
{
    match slot {
        Token::Word(_) => false,
        Token::Something => {
            commands.is_of(object, KindNo::THING)
                && is_meant(commands, noun, object)
                && commands.visible(object)
        }
        Token::Direction => {
            commands.is_of(object, KindNo::DIRECTION) && is_meant(commands, noun, object)
        }
    }
}

/// Whether each word of an object is one of another's.
fn are_words_of<C: Commands>(commands: &C, object: ObjNo, other: ObjNo) -> bool
    ensures { result ≡ list_all (has_word ((C.grammar commands.now).words other)) ((C.grammar commands.now).words object) }
{
    let count = commands.word_count(object);
    for place in 0..count {
        if !commands.has_word(other, commands.word(object, place)) {
            return false;
        }
    }
    true
}

/// Whether two objects go by the same words, whatever their order.
pub(crate) fn are_named_alike<C: Commands>(commands: &C, object: ObjNo, other: ObjNo) -> bool
    ensures { result ≡ are_named_alike (C.grammar commands.now) object other }
{
    are_words_of(commands, object, other) && are_words_of(commands, other, object)
}

/// The first object that a slot's noun may mean.
pub(crate) fn first_candidate<C: Commands>(
    commands: &C,
    slot: Token<'_>,
    noun: &[&[u8]],
) -> Option<ObjNo>
    ensures { result ≡ find (is_candidate (C.grammar commands.now) (C.sees commands.now) (told_token slot.entry) (typed noun.now))
        (objects_of (C.grammar commands.now).setting) }
{
    let count = commands.object_count();
    for number in 0..count {
        let object = ObjNo::new(number);
        if is_candidate(commands, slot, noun, object) {
            return Some(object);
        }
    }
    None
}

/// Whether an object that a slot's noun may mean is named as the first.
fn is_alike<C: Commands>(
    commands: &C,
    slot: Token<'_>,
    noun: &[&[u8]],
    first: ObjNo,
    object: ObjNo,
) -> bool
    ensures { result ≡ is_alike_if (C.grammar commands.now)
        (is_candidate (C.grammar commands.now) (C.sees commands.now) (told_token slot.entry) (typed noun.now)) first object }
{
    !is_candidate(commands, slot, noun, object) || are_named_alike(commands, first, object)
}

/// Whether all objects that a slot's noun may mean are named as the first.
pub(crate) fn are_candidates_alike<C: Commands>(
    commands: &C,
    slot: Token<'_>,
    noun: &[&[u8]],
    first: ObjNo,
) -> bool
    ensures { result ≡ are_alike (C.grammar commands.now) (C.sees commands.now) (told_token slot.entry) (typed noun.now) first }
{
    let count = commands.object_count();
    for number in 0..count {
        let object = ObjNo::new(number);
        if !is_alike(commands, slot, noun, first, object) {
            return false;
        }
    }
    true
}

/// The first object where all are named alike, else an open choice.
pub(crate) fn filling_by(alike: bool, first: ObjNo) -> Filling
    ensures { result ≡ filling_by alike first }
{
    if alike {
        Filling::Settled(first)
    } else {
        Filling::Open
    }
}
