//! What `follow` says (*Writing with Inform*, chapter 19): the rulebook of `follow the check taking rules`.
ghost use Rattle.std.specs.Prelude.{◌≡◌, ℕ, ◌+◌, ◌*◌, ◌≤◌, List, length, option_map, IfOk};
ghost use Rattle.world_meaning.specs.Spelling.{is_spelled};
ghost use Rattle.i7_actions.specs.BookForms.{book_said, built_in_said, own_said, stage_said};
ghost use Rattle.i7_actions.specs.Books.{IsBookFound, IsFollowed, IsOwnFound, behind_carry, book_alone, book_of_word, is_action, is_every_turn, stage_at, stage_by};
ghost use Rattle.i7_actions.specs.declared.action.Action.{Action as Row};
ghost use Rattle.i7_conditions.specs.Words.{Word};

use crate::action::Action;
use crate::part::is_name;
use i7_conditions::key_of;
use play_meaning::standard_books::{
    AFTER, BEFORE, CARRY_OUT, CHECK, EVERY_TURN, INSTEAD, REPORT, SCENE_BEGINS,
};
use std::alloc::{AllocError, Global};
use world_meaning::{TextBytes, is_spelled};

/// The rulebook that a word names alone.
#[tactic(auto, unfolding(crate::specs::Books::book_of_word))]
fn book_of_word(word: &TextBytes) -> Option<u16>
    ensures { result ≡ book_of_word word.now }
{
    if is_spelled(word.as_slice(), b"before") {
        Some(BEFORE)
    } else if is_spelled(word.as_slice(), b"instead") {
        Some(INSTEAD)
    } else if is_spelled(word.as_slice(), b"after") {
        Some(AFTER)
    } else {
        None
    }
}

/// Whether two words are `every turn`.
#[tactic(auto, unfolding(crate::specs::Books::is_every_turn))]
fn is_every_turn(first: &TextBytes, second: &TextBytes) -> bool
    ensures { result ≡ is_every_turn first.now second.now }
{
    is_spelled(first.as_slice(), b"every") && is_spelled(second.as_slice(), b"turn")
}

/// The rulebook that words name without an action.
fn book_alone(words: &[TextBytes]) -> Option<u16>
    ensures { result ≡ book_alone words.now }
{
    match words {
        [word] => book_of_word(word),
        [first, second] => {
            if is_every_turn(first, second) {
                Some(EVERY_TURN)
            } else {
                None
            }
        }
        _ => None,
    }
}

/// What a `carry` begins that an `out` stands behind.
fn behind_carry(rest: &[TextBytes]) -> Option<(u16, &[TextBytes])>
    ensures { option_map (λ parts. (parts.0, parts.1.now)) result ≡ behind_carry rest.now }
{
    match rest {
        [] => None,
        [word, behind @ ..] => {
            if is_spelled(word.as_slice(), b"out") {
                Some((CARRY_OUT, behind))
            } else {
                None
            }
        }
    }
}

/// The rulebook of the stage that a word begins, and the words behind it.
#[tactic(auto, unfolding(crate::specs::Books::stage_by))]
fn stage_by<'a>(word: &TextBytes, rest: &'a [TextBytes]) -> Option<(u16, &'a [TextBytes])>
    ensures { option_map (λ parts. (parts.0, parts.1.now)) result ≡ stage_by word.now rest.now }
{
    if is_spelled(word.as_slice(), b"check") {
        Some((CHECK, rest))
    } else if is_spelled(word.as_slice(), b"report") {
        Some((REPORT, rest))
    } else if is_spelled(word.as_slice(), b"carry") {
        behind_carry(rest)
    } else {
        None
    }
}

/// The rulebook of the stage of actions that words begin with, and the words behind it.
fn stage_at(words: &[TextBytes]) -> Option<(u16, &[TextBytes])>
    ensures { option_map (λ parts. (parts.0, parts.1.now)) result ≡ stage_at words.now }
{
    match words {
        [] => None,
        [word, rest @ ..] => stage_by(word, rest),
    }
}

/// Whether words are the name of one of the actions.
fn is_action(actions: &[Action], words: &[TextBytes]) -> bool
    ensures { result ≡ is_action actions.now words.now }
{
    actions
        .iter()
        .any(|action| is_name(action.name.as_slice(), words))
}

/// The rulebook of a stage, where the name of an action stands behind it.
fn stage_said(actions: &[Action], words: &[TextBytes]) -> Option<u16>
    ensures { result ≡ stage_said actions.now (stage_at words.now) }
{
    match stage_at(words) {
        None => None,
        Some((book, name)) => {
            if is_action(actions, name) {
                Some(book)
            } else {
                None
            }
        }
    }
}

/// The built-in rulebook that words name.
fn built_in_said(actions: &[Action], words: &[TextBytes]) -> Option<u16>
    ensures { result ≡ built_in_said actions.now words.now }
{
    match book_alone(words) {
        None => stage_said(actions, words),
        Some(book) => Some(book),
    }
}

/// The first of the author's rulebooks that has this name.
fn own_said(rulebooks: &[TextBytes], scenes: u16, key: &[u8]) -> Option<u16>
    requires countable { 8 + 2 * scenes + length rulebooks.now ≤ 65535 }
    ensures { result ≡ own_said rulebooks.now scenes key.now }
{
    let mut book = SCENE_BEGINS + 2 * scenes;
    let mut rest = rulebooks;
    while let [name, after @ ..] = rest {
        if is_spelled(key, name.as_slice()) {
            return Some(book);
        }
        book += 1;
        rest = after;
    }
    None
}

/// The author's rulebook that words name, those being told as for [`book_of`]: the one of `A cleanup rule: ..`.
#[tactic(auto, using(crate::proofs::Followed::own_books_found))]
pub fn own_book_of(
    alloc: Global,
    rulebooks: &[TextBytes],
    scenes: u16,
    words: &[TextBytes],
) -> Result<Option<u16>, AllocError>
    requires countable { 8 + 2 * scenes + length rulebooks.now ≤ 65535 }
    ensures { IfOk result (λ book. IsOwnFound rulebooks.now scenes words.now book) }
{
    let key = key_of(alloc, words)?;
    Ok(own_said(rulebooks, scenes, key.as_slice()))
}

/// The rulebook of this name, by what is built in and then by the author's.
#[tactic(auto, unfolding(crate::specs::BookForms::book_said))]
fn book_said(
    alloc: Global,
    actions: &[Action],
    rulebooks: &[TextBytes],
    scenes: u16,
    words: &[TextBytes],
) -> Result<Option<u16>, AllocError>
    requires countable { 8 + 2 * scenes + length rulebooks.now ≤ 65535 }
    ensures { IfOk result (λ book. book ≡ book_said actions.now rulebooks.now scenes words.now) }
{
    match built_in_said(actions, words) {
        Some(book) => Ok(Some(book)),
        None => {
            let key = key_of(alloc, words)?;
            Ok(own_said(rulebooks, scenes, key.as_slice()))
        }
    }
}

/// The rulebook that words name, those of the author being told by their names without `rules`, and by how many scenes
/// there are. The rules of a stage are one rulebook, whatever action is named.
#[tactic(auto, using(crate::proofs::Followed::books_found))]
pub fn book_of(
    alloc: Global,
    actions: &[Action],
    rulebooks: &[TextBytes],
    scenes: u16,
    words: &[TextBytes],
) -> Result<Option<u16>, AllocError>
    requires countable { 8 + 2 * scenes + length rulebooks.now ≤ 65535 }
    ensures { IfOk result (λ book. IsBookFound actions.now rulebooks.now scenes words.now book) }
{
    book_said(alloc, actions, rulebooks, scenes, words)
}

/// Words name one rulebook at most.
pub fn one_book_is_followed()
    ensures { (actions : List Row) (names : List (List ℕ)) (scenes : ℕ) (words : List Word) (j k : ℕ) → IsFollowed actions names scenes words j → IsFollowed actions names scenes words k → j ≡ k }
{}
