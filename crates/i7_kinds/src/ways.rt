//! Ways: those that sentences state, plainly or by a door, and the ways back that they imply.
ghost use Rattle.std.specs.Prelude.{◌≡◌, ℕ, ◌∷◌, [], IfOk, OnOk};
ghost use Rattle.i7_kinds.specs.Demands.{first_target, implied_in, implied_leads, is_elsewhere, is_same_door, is_target, lead_to, leads_elsewhere, second_target, stated_in, stated_leads, target_of, way_back, way_there, way_through};
ghost use Rattle.i7_kinds.specs.Views.{LeadsOn, given_exit, target_at};

use i7_claims::{Numbered, NumberedSentence, NumberedSide, NumberedWay};
use indexmap::IndexMap;
use std::alloc::{AllocError, Global};
use world_meaning::{Direction, ObjNo};

/// A direction out of an object, by the numbers of both.
#[derive(Clone, Copy, Hash, PartialEq, Eq)]
pub struct Exit {
    pub room: usize,
    pub direction: ObjNo,
}

/// The room beyond, and the door on the way.
#[derive(Clone, Copy)]
pub struct Target {
    pub room: usize,
    pub door: Option<usize>,
}

/// An exit leads to a target.
#[derive(Clone, Copy)]
pub struct Lead {
    pub exit: Exit,
    pub target: Target,
}

/// Where exits lead: the first target of each.
type Targets = IndexMap<Exit, Target>;

/// The ways of a source's statements.
#[derive(Drop)]
pub struct Ways<'a> {
    statements: &'a [NumberedSentence],
    targets: Targets,
    /// The line of the first statement that leads an exit to a second target.
    second: Option<u32>,
    ghost led: { (room direction : ℕ) → target_at targets room direction ≡ target_of statements.now room direction },
    ghost seen: { second ≡ second_target statements.now },
}

fn lead_to(room: usize, direction: Direction, target: usize, door: Option<usize>) -> Lead
    ensures { result ≡ lead_to room direction target door }
{
    Lead {
        exit: Exit {
            room,
            direction: direction.number(),
        },
        target: Target { room: target, door },
    }
}

/// The way that is stated.
fn way_there(way: NumberedWay) -> Lead
    ensures { result ≡ way_there way }
{
    lead_to(way.room, way.direction, way.subject, None)
}

/// The way back of one that is stated.
fn way_back(way: NumberedWay) -> Lead
    ensures { result ≡ way_back way }
{
    lead_to(way.subject, way.direction.opposite(), way.room, None)
}

/// The way from one side of a door to the other.
fn way_through(door: usize, here: NumberedSide, beyond: NumberedSide) -> Lead
    ensures { result ≡ way_through door here beyond }
{
    lead_to(here.room, here.direction, beyond.room, Some(door))
}

/// Leads an exit, unless it is led.
fn lead_exit(targets: &mut Targets, lead: Lead) -> Result<(), AllocError>
    ensures { OnOk result (LeadsOn targets.old targets.new (given_exit lead.exit lead.target)) }
{
    if targets.get(&lead.exit).is_none() {
        targets.insert(lead.exit, lead.target)?;
    }
    Ok(())
}

/// Leads one exit, and then another, which may be the same.
fn lead_both(targets: &mut Targets, first: Lead, second: Lead) -> Result<(), AllocError>
    ensures { OnOk result (LeadsOn targets.old targets.new (first_target (first ∷ second ∷ []))) }
{
    lead_exit(targets, first)?;
    lead_exit(targets, second)
}

/// Leads where a statement says.
fn lead_stated(targets: &mut Targets, said: &Numbered) -> Result<(), AllocError>
    ensures { OnOk result (LeadsOn targets.old targets.new (first_target (stated_in said.now))) }
{
    match said {
        Numbered::Aside
        | Numbered::Description(_)
        | Numbered::Describes { .. }
        | Numbered::Being(_) => Ok(()),
        Numbered::Way(way) => lead_exit(targets, way_there(*way)),
        Numbered::Door(door) => {
            let there = way_through(door.door, door.first, door.second);
            let back = way_through(door.door, door.second, door.first);
            lead_both(targets, there, back)
        }
    }
}

/// Leads the way back of the one that a statement says.
fn lead_back(targets: &mut Targets, said: &Numbered) -> Result<(), AllocError>
    ensures { OnOk result (LeadsOn targets.old targets.new (first_target (implied_in said.now))) }
{
    match said {
        Numbered::Aside
        | Numbered::Description(_)
        | Numbered::Describes { .. }
        | Numbered::Being(_) => Ok(()),
        Numbered::Way(way) => lead_exit(targets, way_back(*way)),
        Numbered::Door(_) => Ok(()),
    }
}

/// The targets that statements say.
fn stated_targets(alloc: Global, statements: &[NumberedSentence]) -> Result<Targets, AllocError>
    ensures { IfOk result (λ targets. (room direction : ℕ) → target_at targets room direction ≡ first_target (stated_leads statements.now) room direction) }
{
    let mut targets = IndexMap::new(alloc);
    let mut rest = statements;
    while let [statement, after @ ..] = rest {
        lead_stated(&mut targets, &statement.said)?;
        rest = after;
    }
    Ok(targets)
}

/// Leads the ways back that statements imply, where nothing else leads.
fn lead_all_back(targets: &mut Targets, statements: &[NumberedSentence]) -> Result<(), AllocError>
    ensures { OnOk result (LeadsOn targets.old targets.new (first_target (implied_leads statements.now))) }
{
    let mut rest = statements;
    while let [statement, after @ ..] = rest {
        lead_back(targets, &statement.said)?;
        rest = after;
    }
    Ok(())
}

fn is_same_door(door: Option<usize>, other: Option<usize>) -> bool
    ensures { result ≡ is_same_door door other }
{
    match door {
        None => other.is_none(),
        Some(door) => match other {
            None => false,
            Some(other) => door == other,
        },
    }
}

fn is_target(target: Target, other: Target) -> bool
    ensures { result ≡ is_target target other }
{
    target.room == other.room && is_same_door(target.door, other.door)
}

/// Whether an exit is led elsewhere than to its first target.
fn is_elsewhere(targets: &Targets, leads: &[NumberedSentence], lead: Lead) -> bool
    requires stated { (room direction : ℕ) → target_at targets.now room direction ≡ first_target (stated_leads leads.now) room direction }
    ensures { result ≡ is_elsewhere (stated_leads leads.now) lead }
{
    let _ = leads;
    match targets.get(&lead.exit) {
        None => true,
        Some(first) => !is_target(lead.target, *first),
    }
}

/// Whether a statement leads an exit elsewhere than to its first target.
fn leads_elsewhere(targets: &Targets, leads: &[NumberedSentence], said: &Numbered) -> bool
    requires stated { (room direction : ℕ) → target_at targets.now room direction ≡ first_target (stated_leads leads.now) room direction }
    ensures { result ≡ leads_elsewhere (stated_leads leads.now) said.now }
{
    match said {
        Numbered::Aside
        | Numbered::Description(_)
        | Numbered::Describes { .. }
        | Numbered::Being(_) => false,
        Numbered::Way(way) => is_elsewhere(targets, leads, way_there(*way)),
        Numbered::Door(door) => {
            let there = way_through(door.door, door.first, door.second);
            let back = way_through(door.door, door.second, door.first);
            is_elsewhere(targets, leads, there) || is_elsewhere(targets, leads, back)
        }
    }
}

/// The line of the first statement that leads an exit to a second target, by the targets that the
/// statements say.
fn second_target(targets: &Targets, statements: &[NumberedSentence]) -> Option<u32>
    requires stated { (room direction : ℕ) → target_at targets.now room direction ≡ first_target (stated_leads statements.now) room direction }
    ensures { result ≡ second_target statements.now }
{
    let mut rest = statements;
    while let [statement, after @ ..] = rest {
        if leads_elsewhere(targets, statements, &statement.said) {
            return Some(statement.line);
        }
        rest = after;
    }
    None
}

impl<'a> Ways<'a> {
    ghost use Rattle.world_meaning.specs.Directions.{direction_number};
    ghost use Rattle.i7_kinds.specs.StatedWays.{stated};

    /// The ways of these statements.
    pub fn new(alloc: Global, statements: &'a [NumberedSentence]) -> Result<Ways<'a>, AllocError>
        ensures { IfOk result (λ ways. stated ways ≡ statements.now) }
    {
        let mut targets = stated_targets(alloc, statements)?;
        let second = second_target(&targets, statements);
        lead_all_back(&mut targets, statements)?;
        Ok(Ways {
            statements,
            targets,
            second,
        })
    }

    /// The statements that state them.
    pub fn statements(&self) -> &'a [NumberedSentence]
        ensures { result.now ≡ stated self.now }
    {
        self.statements
    }

    /// The line of the first statement that leads an exit to a second target.
    pub fn second_target(&self) -> Option<u32>
        ensures { result ≡ second_target (stated self.now) }
    {
        self.second
    }

    /// Where an exit leads: where a sentence says, else where the first that implies it does.
    pub fn target_of(&self, room: usize, direction: Direction) -> Option<Target>
        ensures { result ≡ target_of (stated self.now) room (direction_number direction) }
    {
        let exit = Exit {
            room,
            direction: direction.number(),
        };
        self.targets.get(&exit).copied()
    }
}
