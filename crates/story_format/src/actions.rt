//! Table 8 of every story: the sixteen actions, and behind them the author's, by what each needs.
ghost use Rattle.std.specs.Prelude.{◌≡◌, ◌++◌, IfOk, OnOk, map};
ghost use Rattle.story_format.specs.RuleMaking.{action_entries, action_entry, mark_if, need_number, noun_count};

use crate::rule_tables::ActionEntry;
use crate::table::Table;
use std::alloc::{AllocError, Global};
use world_meaning::{Needs, Slot};

/// No noun.
const NOTHING: Needs = Needs {
    noun: Slot::Absent,
    second: Slot::Absent,
    light: false,
    out_of_world: false,
};

/// One noun that is seen, in the light.
const EXAMINED: Needs = Needs {
    noun: Slot::Visible,
    second: Slot::Absent,
    light: true,
    out_of_world: false,
};

/// One noun that is touched.
const TOUCHED: Needs = Needs {
    noun: Slot::Touched,
    second: Slot::Absent,
    light: false,
    out_of_world: false,
};

/// One noun that is carried, to one that is touched.
const PUT: Needs = Needs {
    noun: Slot::Carried,
    second: Slot::Touched,
    light: false,
    out_of_world: false,
};

/// One noun that is seen.
const SEEN: Needs = Needs {
    noun: Slot::Visible,
    second: Slot::Absent,
    light: false,
    out_of_world: false,
};

/// One noun that is carried.
const CARRIED: Needs = Needs {
    noun: Slot::Carried,
    second: Slot::Absent,
    light: false,
    out_of_world: false,
};

/// What each action needs that every story has, by number (*Writing with Inform*, chapter 12).
const STANDARD_NEEDS: [Needs; 16] = [
    NOTHING, EXAMINED, TOUCHED, TOUCHED, PUT, PUT, TOUCHED, TOUCHED, SEEN, CARRIED, TOUCHED,
    NOTHING, NOTHING, NOTHING, TOUCHED, TOUCHED,
];

fn need_number(slot: Slot) -> u8
    ensures { result ≡ need_number slot }
{
    match slot {
        Slot::Absent => 255,
        Slot::Visible => 0,
        Slot::Touched => 1,
        Slot::Carried => 2,
    }
}

fn noun_count(slot: Slot) -> u8
    ensures { result ≡ noun_count slot }
{
    match slot {
        Slot::Absent => 0,
        _ => 1,
    }
}

/// The mark, where it is so; else 0.
pub fn mark_if(mark: u8, is: bool) -> u8
    ensures { result ≡ mark_if mark is }
{
    if is { mark } else { 0 }
}

/// The entry of an action that needs so much.
fn action_entry(needs: &Needs) -> ActionEntry
    ensures { result ≡ action_entry needs.now }
{
    ActionEntry {
        nouns: noun_count(needs.noun) + noun_count(needs.second),
        noun: need_number(needs.noun),
        second: need_number(needs.second),
        marks: mark_if(1, needs.light) + mark_if(2, needs.out_of_world),
    }
}

/// Adds the entries of actions that need so much.
fn add_entries(entries: &mut Vec<ActionEntry>, actions: &[Needs]) -> Result<(), AllocError>
    ensures { OnOk result (entries.new.items ≡ entries.old.items ++ map action_entry actions.now) }
{
    let mut rest = actions;
    while let [needs, after @ ..] = rest {
        entries.push(action_entry(needs))?;
        rest = after;
    }
    Ok(())
}

/// The entries of the sixteen actions, and behind them those of the author's, which need so much.
#[tactic(auto, unfolding(crate::specs::RuleMaking::action_entries, play_meaning::specs::StandardActions::standard_needs))]
pub fn action_entries(alloc: Global, actions: &[Needs]) -> Result<Table<ActionEntry>, AllocError>
    ensures { IfOk result (λ entries. entries ≡ action_entries actions.now) }
{
    let mut entries = Vec::new(alloc);
    add_entries(&mut entries, &STANDARD_NEEDS)?;
    add_entries(&mut entries, actions)?;
    Ok(Table::new(entries))
}
