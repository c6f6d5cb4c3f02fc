//! What the standard rules do: the stored function of a rule is called, its changes are made and its text is said.
ghost use Rattle.std.specs.Prelude.{◌≡◌, ◌≤◌, IfOk, Err, OnErr, OnOk};
ghost use Rattle.play_meaning.specs.Effects.{all_made, ended, made};
ghost use Rattle.play_meaning.specs.Progress.{Progress};
ghost use Rattle.standard_rules.specs.Answers.{HasEffect, ends_of};
ghost use Rattle.standard_rules.specs.HostTables.{rule_count};
ghost use Rattle.standard_rules.specs.Hosts.{are_there, has_object};
ghost use Rattle.world_store.specs.StorySettings.{setting_of};
ghost use Rattle.world_meaning.specs.declared.session.Abandon.TheVariants.{Memory};
ghost use Rattle.world_store.specs.StoryWorlds.{changed};
ghost use Rattle.action_stages.specs.Answering.{ends_so};
ghost use Rattle.action_stages.specs.Returning.{ComesBehind};

use play_meaning::{ActionNow, Change, Flow, Outcome, WorldFault};
use smallvec::SmallVec;
use standard_rules::{HostAnswer, HostOutcome, HostTable, standard};
use std::alloc::{AllocError, Global};
use story_code::unless_refused;
use world_meaning::{Abandon, ObjNo};
use world_store::World;

/// The stored rules, all of them there.
#[derive(Drop)]
pub struct Rules<'a> {
    table: &'a HostTable,
    ghost complete: { rule_count table.now ≡ 61 },
}

/// Whether a noun is one of the story's objects, or none.
#[tactic(auto, unfolding(standard_rules::specs::Hosts::are_there))]
fn has_object(world: &World, object: &Option<ObjNo>) -> bool
    ensures { result ≡ has_object world.now object.now }
{
    match object {
        None => true,
        Some(object) => usize::from(object.get()) < world.story().object_count(),
    }
}

/// Whether the story has an action and its nouns, or there are none.
#[tactic(auto, unfolding(standard_rules::specs::Hosts::are_there))]
fn are_there(world: &World, now: &ActionNow) -> bool
    ensures { result ≡ are_there world.now now.now }
{
    let action = now.action.get();
    (usize::from(action) < world.story().action_count() || action == 255)
        && has_object(world, &now.noun)
        && has_object(world, &now.second)
}

impl<'a> Rules<'a> {
    /// These rules, if they are all there.
    pub fn new(table: &'a HostTable) -> Rules<'a>
        requires complete { rule_count table.now ≡ 61 }
    {
        Rules { table }
    }

    /// What the stored function of a rule answers. It is asked of actions and nouns of its story alone: for what isn't there
    /// the standard rule answers, which does the same.
    #[tactic(auto, unfolding(standard_rules::specs::Answers::HasEffect))]
    pub fn answer(
        &self,
        alloc: Global,
        rule: u8,
        world: &World,
        now: &ActionNow,
    ) -> Result<HostAnswer, AllocError>
        requires low { 1 ≤ rule }
        requires high { rule ≤ 61 }
        ensures { IfOk result (λ answer. HasEffect rule world.now now.now answer) }
    {
        if are_there(world, now) {
            Ok(self.table.call(alloc, rule, world, now)?)
        } else {
            Ok(standard(alloc, rule, world, now)?)
        }
    }
}

/// Asks for a change.
#[tactic(auto, using(story_code::proofs::Unchanged::no_variable, crate::proofs::Returning::no_scene))]
fn make(world: &mut World, change: Change) -> Result<(), WorldFault>
    ensures world { world.new ≡ changed result (made (setting_of world.old.tables) world.old.world change) world.old }
    ensures left { OnErr result (world.new ≡ world.old) }
{
    match change {
        Change::SetFlag {
            object,
            property,
            value,
        } => world.set_flag(object, property, value),
        Change::SetNumber {
            object,
            property,
            value,
        } => world.set_number(object, property, value),
        Change::SetVariable { variable, value } => world.set_variable(variable, value),
        Change::SetValue {
            object,
            kind,
            value,
        } => world.set_value(object, kind, value),
        Change::Put {
            object,
            relation,
            holder,
        } => world.put(object, relation, holder),
        Change::TakeOut(object) => world.take_out(object),
        Change::SetScene { scene, now } => world.set_scene(scene, now),
        Change::EndStory(text) => world.end_story(text),
    }
}

/// Makes a change; one that isn't allowed does nothing.
#[tactic(auto, using(crate::proofs::Returning::changed_behind))]
fn make_one(world: &mut World, change: Change) -> Result<(), Abandon>
    ensures made { OnOk result (world.new.world ≡ made (setting_of world.old.tables) world.old.world change) }
    ensures refused { OnErr result (result ≡ Err Memory) }
    ensures tables { world.new.tables ≡ world.old.tables }
    ensures behind { ComesBehind world.old world.new }
{
    unless_refused(make(world, change))
}

/// Makes changes in order, up to the first that is refused.
pub fn make_all(world: &mut World, changes: SmallVec<Change, 2>) -> Result<(), Abandon>
    ensures made { OnOk result (world.new.world ≡ all_made (setting_of world.old.tables) changes.items world.old.world) }
    ensures refused { OnErr result (result ≡ Err Memory) }
    ensures tables { world.new.tables ≡ world.old.tables }
    ensures behind { ComesBehind world.old world.new }
{
    let mut answer = Ok(());
    for change in changes {
        if answer.is_ok() {
            answer = make_one(world, change);
        }
    }
    answer
}

/// How a rule ends.
pub fn ends(outcome: HostOutcome) -> Result<Flow, Abandon>
    ensures { (p : Progress) → ends_so result p ≡ ended (ends_of outcome) p }
{
    match outcome {
        HostOutcome::ByEnd => Ok(Flow::GoesOn),
        HostOutcome::Success => Ok(Flow::Decides(Outcome::Success)),
        HostOutcome::Failure => Ok(Flow::Decides(Outcome::Failure)),
        HostOutcome::OutOfRange => Err(Abandon::NumberOutOfRange),
    }
}
