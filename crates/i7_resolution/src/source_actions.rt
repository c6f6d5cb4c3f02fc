//! The actions of a source by number, and what refuses the source for them: a name given twice, or one too many.
ghost use Rattle.std.specs.Prelude.{◌≡◌, ◌≤◌, fold, length, map, IfOk, OnOk};
ghost use Rattle.object_words.specs.Mentions.{mention};
ghost use Rattle.i7_resolution.specs.SourceActions.{key_of_action, action_lent, action_over, action_twice, actions_lent, actions_with, known_actions, name_of, named_before, standard_names};

use crate::action_list::ActionAt;
use i7_actions::{Action, standard_actions};
use i7_conditions::key_of;
use i7_sentences::lower_of;
use object_words::Strings;
use std::alloc::{AllocError, Global};

/// The most actions of the author's: with the sixteen standard ones they are 200.
const MOST: usize = 184;

/// How many actions rules know.
const MOST_KNOWN: usize = 255;

/// All actions, by number.
pub fn actions_of(alloc: Global, declared: &[ActionAt<'_>]) -> Result<Vec<Action>, AllocError>
    ensures { IfOk result (λ actions. actions.items ≡ actions_with (actions_lent declared.now)) }
{
    let mut actions = standard_actions(alloc)?;
    let mut rest = declared;
    while let [action, behind @ ..] = rest {
        actions.push(action.action(alloc)?)?;
        rest = behind;
    }
    Ok(actions)
}

/// Those that rules know: a rule keeps an action's number in a byte.
#[tactic(auto, using(std::proofs::lemmas::List::take_min))]
pub fn known_actions(actions: &[Action]) -> &[Action]
    ensures known { result.now ≡ known_actions actions.now }
    ensures few { length result.now ≤ 255 }
{
    let (known, _) = actions.split_at(MOST_KNOWN.min(actions.len()));
    known
}

/// Mentions the names of actions.
fn mention_names(alloc: Global, names: &mut Strings, actions: &[Action]) -> Result<(), AllocError>
    ensures { OnOk result (names.new ≡ fold mention names.old (map key_of_action actions.now)) }
{
    let mut rest = actions;
    while let [action, behind @ ..] = rest {
        let name = key_of(alloc, action.name.as_slice())?;
        names.mention(alloc, name.as_slice())?;
        rest = behind;
    }
    Ok(())
}

/// The names of the standard actions.
#[tactic(auto, unfolding(crate::specs::SourceActions::standard_names))]
fn standard_names(alloc: Global) -> Result<Strings, AllocError>
    ensures { IfOk result (λ names. names ≡ standard_names) }
{
    let actions = standard_actions(alloc)?;
    let mut names = Strings::new(alloc);
    mention_names(alloc, &mut names, actions.as_slice())?;
    Ok(names)
}

/// Mentions the name of an action, and tells the action's line if the name was mentioned before.
fn twice_at(
    alloc: Global,
    names: &mut Strings,
    action: &ActionAt<'_>,
) -> Result<Option<u32>, AllocError>
    ensures told { IfOk result (λ told. told ≡ named_before names.old (action_lent action.now)) }
    ensures names { OnOk result (names.new ≡ mention names.old (name_of (action_lent action.now))) }
{
    let name = key_of(alloc, action.said.name.as_slice())?;
    let is_twice = names.contains(name.as_slice());
    names.mention(alloc, name.as_slice())?;
    Ok(if is_twice { Some(action.line) } else { None })
}

/// The lowest line of an action whose name a standard one or one before it has.
#[tactic(auto, using(i7_sentences::proofs::Lowest::lower_steps))]
pub fn action_twice(alloc: Global, declared: &[ActionAt<'_>]) -> Result<Option<u32>, AllocError>
    ensures { IfOk result (λ line. line ≡ action_twice (actions_lent declared.now)) }
{
    let mut names = standard_names(alloc)?;
    let mut low = None;
    let mut rest = declared;
    while let [action, behind @ ..] = rest {
        low = lower_of(low, twice_at(alloc, &mut names, action)?);
        rest = behind;
    }
    Ok(low)
}

/// The line of the first action that is one too many, if there is one.
pub fn action_over(declared: &[ActionAt<'_>]) -> Option<u32>
    ensures { result ≡ action_over (actions_lent declared.now) }
{
    match declared.get(MOST) {
        None => None,
        Some(action) => Some(action.line),
    }
}
