//! Actions by their names (*Writing with Inform*, chapter 12): `taking`, `putting it on`.
ghost use Rattle.std.specs.Prelude.{◌≡◌, map, IfOk};
ghost use Rattle.i7_actions.specs.Actions.{action_named, count_needed, counted, standard_actions};
ghost use Rattle.play_meaning.specs.StandardActions.{standard_needs};

use std::alloc::{AllocError, Global};
use world_meaning::{Listed, Needs, Slot, TextBytes};

/// How many nouns an action has.
#[derive(Clone, Copy)]
pub enum NounCount {
    Zero,
    One,
    Two,
}

/// An action.
#[derive(Drop)]
pub struct Action {
    /// The words of its name; where `it` stands among them, a noun comes in a phrase.
    pub name: Listed<TextBytes>,
    pub nouns: NounCount,
}

/// The actions that every story has, by number: the words of the name, and how many nouns.
pub const STANDARD_ACTIONS: [(&[&[u8]], NounCount); 16] = [
    (&[b"looking"], NounCount::Zero),
    (&[b"examining"], NounCount::One),
    (&[b"taking"], NounCount::One),
    (&[b"dropping"], NounCount::One),
    (&[b"putting", b"it", b"on"], NounCount::Two),
    (&[b"inserting", b"it", b"into"], NounCount::Two),
    (&[b"opening"], NounCount::One),
    (&[b"closing"], NounCount::One),
    (&[b"going"], NounCount::One),
    (&[b"wearing"], NounCount::One),
    (&[b"taking", b"off"], NounCount::One),
    (&[b"taking", b"inventory"], NounCount::Zero),
    (&[b"waiting"], NounCount::Zero),
    (&[b"jumping"], NounCount::Zero),
    (&[b"switching", b"on"], NounCount::One),
    (&[b"switching", b"off"], NounCount::One),
];

/// A name of these words.
fn name_of(alloc: Global, name: &[&[u8]]) -> Result<Listed<TextBytes>, AllocError>
    ensures { IfOk result (λ words. words ≡ map (λ word. word.now) name.now) }
{
    let mut words = Vec::new(alloc);
    let mut rest = name;
    while let [word, after @ ..] = rest {
        words.push(TextBytes::copied(alloc, word)?)?;
        rest = after;
    }
    Ok(Listed::new(words))
}

/// The action of a row.
fn action_of(alloc: Global, row: &(&[&[u8]], NounCount)) -> Result<Action, AllocError>
    ensures { IfOk result (λ action. action ≡ record { name = map (λ word. word.now) row.now.0.now; nouns = row.now.1 }) }
{
    let name = name_of(alloc, row.0)?;
    Ok(Action { name, nouns: row.1 })
}

/// The actions of rows.
fn actions_of(alloc: Global, rows: &[(&[&[u8]], NounCount)]) -> Result<Vec<Action>, AllocError>
    ensures { IfOk result (λ actions. actions.items ≡ map (λ row. record { name = map (λ word. word.now) row.0.now; nouns = row.1 }) rows.now) }
{
    let mut actions = Vec::new(alloc);
    let mut rest = rows;
    while let [row, after @ ..] = rest {
        actions.push(action_of(alloc, row)?)?;
        rest = after;
    }
    Ok(actions)
}

/// The actions that every story has, by number.
#[tactic(auto, unfolding(crate::specs::Actions::standard_actions))]
pub fn standard_actions(alloc: Global) -> Result<Vec<Action>, AllocError>
    ensures { IfOk result (λ actions. actions.items ≡ standard_actions) }
{
    actions_of(alloc, &STANDARD_ACTIONS)
}

/// How many nouns are there where these are asked for.
fn counted(noun: Slot, second: Slot) -> NounCount
    ensures { result ≡ counted noun second }
{
    match noun {
        Slot::Absent => NounCount::Zero,
        Slot::Visible | Slot::Touched | Slot::Carried => match second {
            Slot::Absent => NounCount::One,
            Slot::Visible | Slot::Touched | Slot::Carried => NounCount::Two,
        },
    }
}

/// A copy of words.
fn copied(alloc: Global, words: &[TextBytes]) -> Result<Listed<TextBytes>, AllocError>
    ensures { IfOk result (λ copies. copies ≡ words.now) }
{
    let mut copies = Vec::new(alloc);
    let mut rest = words;
    while let [word, after @ ..] = rest {
        copies.push(TextBytes::copied(alloc, word.as_slice())?)?;
        rest = after;
    }
    Ok(Listed::new(copies))
}

/// The action of this name that asks for so much.
pub fn action_named(alloc: Global, name: &[TextBytes], needs: Needs) -> Result<Action, AllocError>
    ensures { IfOk result (λ action. action ≡ action_named name.now needs) }
{
    let name = copied(alloc, name)?;
    let nouns = counted(needs.noun, needs.second);
    Ok(Action { name, nouns })
}

/// The standard actions have the nouns that they ask for in play.
pub fn nouns_are_those_needed()
    ensures { map (λ action. action.nouns) standard_actions ≡ map count_needed standard_needs }
{}
