//! An action's slots, whose candidates are listed, one behind the other: each is settled, or its object is asked.
ghost use Rattle.std.specs.Prelude.{◌≡◌, IfOk};
ghost use Rattle.std.specs.List.{list_all};
ghost use Rattle.play_meaning.specs.Commands.{asks_for, behind_first, done_to, noun_at, settle};
ghost use Rattle.play_meaning.specs.Grammar.{are_named_alike};
ghost use Rattle.command_parser.specs.Fillings.{filling_of};
ghost use Rattle.command_parser.specs.Readings.{told};
ghost use Rattle.command_parser.specs.Settling.{outcome_of};

use crate::candidates::{are_named_alike, filling_by};
use crate::filling::{Filling, Outcome};
use crate::searching::with_noun;
use crate::{Commands, Objects, Question, Reading, Said};
use play_meaning::{ActNo, ActionNow};
use std::alloc::{AllocError, Global};
use world_meaning::ObjNo;

/// Whether all objects are named as the first.
fn are_alike<C: Commands>(commands: &C, first: ObjNo, objects: &[ObjNo]) -> bool
    ensures { result ≡ list_all (are_named_alike (C.grammar commands.now) first) objects.now }
{
    let mut rest = objects;
    while let [object, after @ ..] = rest {
        if !are_named_alike(commands, first, *object) {
            return false;
        }
        rest = after;
    }
    true
}

/// What a slot's candidates come to.
pub(crate) fn listed_filling<C: Commands>(commands: &C, objects: &[ObjNo]) -> Filling
    ensures { result ≡ filling_of (C.grammar commands.now) objects.now }
{
    match objects {
        [] => Filling::Empty,
        [first, rest @ ..] => filling_by(are_alike(commands, *first, rest), *first),
    }
}

/// What the slots of an action come to that has its nouns so far.
pub(crate) fn outcome<C: Commands>(commands: &C, now: &ActionNow, slots: &[Objects]) -> Outcome
    ensures { result ≡ outcome_of (C.grammar commands.now) now.now slots.now }
{
    let mut next = *now;
    let mut rest = slots;
    while let [slot, after @ ..] = rest {
        match listed_filling(commands, slot.as_slice()) {
            Filling::Empty => return Outcome::NotSeen,
            Filling::Settled(object) => next = with_noun(next, object),
            Filling::Open => return Outcome::Asks,
        }
        rest = after;
    }
    Outcome::Acts(next)
}

/// The first of an action's nouns.
fn noun_at(nouns: &[ObjNo]) -> Option<ObjNo>
    ensures { result ≡ noun_at nouns.now }
{
    match nouns {
        [] => None,
        [first, ..] => Some(*first),
    }
}

/// The nouns behind the first.
fn behind_first(nouns: &[ObjNo]) -> &[ObjNo]
    ensures { result.now ≡ behind_first nouns.now }
{
    match nouns {
        [] => nouns,
        [_, rest @ ..] => rest,
    }
}

/// An action with its nouns.
pub(crate) fn done_to(action: ActNo, nouns: &[ObjNo]) -> ActionNow
    ensures { result ≡ done_to action nouns.now }
{
    ActionNow {
        action,
        noun: noun_at(nouns),
        second: noun_at(behind_first(nouns)),
        silent: false,
    }
}

/// The same lists once more.
pub(crate) fn copies(alloc: Global, lists: &[Objects]) -> Result<Vec<Objects>, AllocError>
    ensures { IfOk result (λ all. all.items ≡ lists.now) }
{
    let mut all = Vec::new(alloc);
    let mut rest = lists;
    while let [list, after @ ..] = rest {
        all.push(Objects::new(Vec::from_slice(alloc, list.as_slice())?))?;
        rest = after;
    }
    Ok(all)
}

/// The question which of a slot's candidates is meant.
fn ask<C: Commands>(
    alloc: Global,
    commands: &C,
    action: ActNo,
    chosen: Vec<ObjNo>,
    candidates: &[ObjNo],
    others: &[Objects],
) -> Result<Reading, AllocError>
    ensures { IfOk result (λ reading. told (C.grammar commands.now) reading ≡ asks_for (C.grammar commands.now) action chosen.items candidates.now others.now) }
{
    let candidates = Objects::new(Vec::from_slice(alloc, candidates)?);
    let others = copies(alloc, others)?;
    Ok(Reading::Asks(Question::new(action, Objects::new(chosen), candidates, others)))
}

/// What the slots mean behind the nouns that are chosen.
pub(crate) fn settle<C: Commands>(
    alloc: Global,
    commands: &C,
    action: ActNo,
    chosen: Vec<ObjNo>,
    slots: &[Objects],
) -> Result<Reading, AllocError>
    ensures { IfOk result (λ reading. told (C.grammar commands.now) reading ≡ settle (C.grammar commands.now) action chosen.items slots.now) }
{
    let mut chosen = chosen;
    let mut rest = slots;
    while let [slot, after @ ..] = rest {
        match listed_filling(commands, slot.as_slice()) {
            Filling::Empty => return Ok(Reading::Says(Said::NotSeen)),
            Filling::Settled(object) => chosen.push(object)?,
            Filling::Open => return ask(alloc, commands, action, chosen, slot.as_slice(), after),
        }
        rest = after;
    }
    Ok(Reading::Acts(done_to(action, chosen.as_slice())))
}
