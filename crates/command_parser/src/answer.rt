//! What the words of a command mean while a question is open: its candidates that go by them, else a new command.
ghost use Rattle.std.specs.Prelude.{◌≡◌, IfOk, OnErr, filter, find, Some, true};
ghost use Rattle.std.specs.List.{list_all};
ghost use Rattle.command_parser.specs.Commanding.{answer_by};
ghost use Rattle.command_parser.specs.Fillings.{filling_of, is_alike_if, is_empty, is_meant};
ghost use Rattle.command_parser.specs.Readings.{told};
ghost use Rattle.command_parser.specs.Settling.{is_asking, narrowed_to, outcome_of, settled_by};
ghost use Rattle.command_parser.specs.Typed.{typed};

use crate::candidates::{are_named_alike, filling_by, is_meant};
use crate::command::meaning;
use crate::filling::{Filling, Outcome};
use crate::listing::add_if;
use crate::searching::with_noun;
use crate::settling::{copies, done_to, outcome, settle};
use crate::words::noun_of;
use crate::{Commands, Objects, Question, Reading, Said};
use play_meaning::ActionNow;
use std::alloc::{AllocError, Global};
use world_meaning::ObjNo;

/// The first of these objects that goes by the words of a noun.
fn first_meant<C: Commands>(commands: &C, noun: &[&[u8]], objects: &[ObjNo]) -> Option<ObjNo>
    ensures { result ≡ find (is_meant (C.grammar commands.now) (typed noun.now)) objects.now }
{
    let mut rest = objects;
    while let [object, after @ ..] = rest {
        if is_meant(commands, noun, *object) {
            return Some(*object);
        }
        rest = after;
    }
    None
}

/// Whether an object that goes by the words of a noun is named as the first.
fn is_alike<C: Commands>(commands: &C, noun: &[&[u8]], first: ObjNo, object: ObjNo) -> bool
    ensures { result ≡ is_alike_if (C.grammar commands.now) (is_meant (C.grammar commands.now) (typed noun.now)) first object }
{
    !is_meant(commands, noun, object) || are_named_alike(commands, first, object)
}

/// Whether all of these objects that go by the words of a noun are named as the first.
fn are_alike<C: Commands>(commands: &C, noun: &[&[u8]], first: ObjNo, objects: &[ObjNo]) -> bool
    ensures { result ≡ list_all (is_alike_if (C.grammar commands.now) (is_meant (C.grammar commands.now) (typed noun.now)) first) objects.now }
{
    let mut rest = objects;
    while let [object, after @ ..] = rest {
        if !is_alike(commands, noun, first, *object) {
            return false;
        }
        rest = after;
    }
    true
}

/// What those of these objects come to that go by the words of a noun.
#[tactic(auto, using(crate::proofs::Filters::none_pass))]
fn narrowed_filling<C: Commands>(commands: &C, noun: &[&[u8]], objects: &[ObjNo]) -> Filling
    ensures { result ≡ filling_of (C.grammar commands.now) (filter (is_meant (C.grammar commands.now) (typed noun.now)) objects.now) }
{
    match first_meant(commands, noun, objects) {
        None => Filling::Empty,
        Some(first) => filling_by(are_alike(commands, noun, first, objects), first),
    }
}

/// Those of these objects that go by the words of a noun.
fn meant<C: Commands>(
    alloc: Global,
    commands: &C,
    noun: &[&[u8]],
    objects: &[ObjNo],
) -> Result<Vec<ObjNo>, AllocError>
    ensures { IfOk result (λ all. all.items ≡ filter (is_meant (C.grammar commands.now) (typed noun.now)) objects.now) }
{
    let mut all = Vec::new(alloc);
    let mut rest = objects;
    while let [object, after @ ..] = rest {
        let is_one = is_meant(commands, noun, *object);
        add_if(&mut all, is_one, *object)?;
        rest = after;
    }
    Ok(all)
}

/// What a slot and the slots behind it come to.
fn settled_by<C: Commands>(
    commands: &C,
    filling: Filling,
    now: &ActionNow,
    others: &[Objects],
) -> Outcome
    ensures { result ≡ settled_by filling now.now (λ next. outcome_of (C.grammar commands.now) next others.now) }
{
    match filling {
        Filling::Empty => Outcome::NotSeen,
        Filling::Settled(object) => {
            let next = with_noun(*now, object);
            outcome(commands, &next, others)
        }
        Filling::Open => Outcome::Asks,
    }
}

/// What a question means whose candidates are those that go by the words of a noun: asked once more.
fn listed_answer<C: Commands>(
    alloc: Global,
    commands: &C,
    question: &Question,
    noun: &[&[u8]],
) -> Result<Reading, AllocError>
    ensures { IfOk result (λ reading. told (C.grammar commands.now) reading ≡ narrowed_to (C.grammar commands.now) question.now (typed noun.now)) }
{
    let mut slots = copies(alloc, question.others())?;
    let objects = meant(alloc, commands, noun, question.candidates())?;
    slots.insert(0, Objects::new(objects))?;
    let chosen = Vec::from_slice(alloc, question.chosen())?;
    Ok(settle(alloc, commands, question.action(), chosen, slots.as_slice())?)
}

/// What a question means whose candidates are those that go by the words of a noun. Only a question takes memory.
fn narrowed<C: Commands>(
    alloc: Global,
    commands: &C,
    question: &Question,
    noun: &[&[u8]],
    filling: Filling,
) -> Result<Reading, AllocError>
    requires comes_to { filling ≡ filling_of (C.grammar commands.now) (filter (is_meant (C.grammar commands.now) (typed noun.now)) question.now.candidates) }
    ensures read { IfOk result (λ reading. told (C.grammar commands.now) reading ≡ narrowed_to (C.grammar commands.now) question.now (typed noun.now)) }
    ensures asks { OnErr result (is_asking (narrowed_to (C.grammar commands.now) question.now (typed noun.now)) ≡ true) }
{
    let begun = done_to(question.action(), question.chosen());
    match settled_by(commands, filling, &begun, question.others()) {
        Outcome::Acts(now) => Ok(Reading::Acts(now)),
        Outcome::NotSeen => Ok(Reading::Says(Said::NotSeen)),
        Outcome::Asks => Ok(listed_answer(alloc, commands, question, noun)?),
    }
}

/// Whether there is no candidate.
fn is_empty(filling: Filling) -> bool
    ensures { result ≡ is_empty filling }
{
    match filling {
        Filling::Empty => true,
        Filling::Settled(_) => false,
        Filling::Open => false,
    }
}

/// What words mean while a question is open. Only a question takes memory.
pub(crate) fn answer<C: Commands>(
    alloc: Global,
    commands: &C,
    question: &Question,
    words: &[&[u8]],
) -> Result<Reading, AllocError>
    ensures read { IfOk result (λ reading. told (C.grammar commands.now) reading ≡ answer_by (C.grammar commands.now) (C.sees commands.now) question.now (typed words.now)) }
    ensures asks { OnErr result (is_asking (answer_by (C.grammar commands.now) (C.sees commands.now) question.now (typed words.now)) ≡ true) }
{
    let noun = noun_of(words);
    let filling = narrowed_filling(commands, noun, question.candidates());
    if is_empty(filling) {
        return Ok(meaning(alloc, commands, words)?);
    }
    Ok(narrowed(alloc, commands, question, noun, filling)?)
}
