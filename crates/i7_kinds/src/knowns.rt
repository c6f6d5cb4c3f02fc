//! The kinds of objects: the deepest kind that is demanded of each.
ghost use Rattle.std.specs.Prelude.{◌≡◌, ◌&&◌, IfOk, not, slice_set};
ghost use Rattle.i7_claims.specs.Numbers.{has_name};
ghost use Rattle.i7_claims.specs.declared.claim.Fact.TheVariants.{Demands};
ghost use Rattle.world_meaning.specs.Kinds.{room_kind};
ghost use Rattle.i7_kinds.specs.Knowns.{deepen, deepened, first_knowns, is_of, is_off, is_parted, is_parted_at, kind_of, known_as, known_at, knowns_of, off_path, thing_or_container, with_demand, with_holder, with_kind, with_known, with_room};

use crate::author_kinds::is_under;
use crate::scope::Scope;
use i7_claims::{Claim, Demand, FIRST_OF_AUTHOR, Fact, Placing, lower};
use std::alloc::{AllocError, Global};
use world_meaning::{KindNo, Rel};

/// What is demanded of an object so far: the deepest kind on whose path all demands lie, if there are any.
#[derive(Clone, Copy)]
pub enum Demanded {
    Nothing,
    Deepest(usize),
    Parted,
}

/// What is known of an object so far.
#[derive(Clone, Copy)]
pub struct Known {
    pub demanded: Demanded,
    /// Whether something is in it.
    pub holds: bool,
}

/// What is known of an object that no claim names.
const UNKNOWN: Known = Known {
    demanded: Demanded::Nothing,
    holds: false,
};

fn known_as(kind: KindNo) -> Known
    ensures { result ≡ known_as kind }
{
    Known {
        demanded: Demanded::Deepest(kind.get() as usize),
        holds: false,
    }
}

/// What is known of so many objects before any claim.
fn first_knowns(alloc: Global, count: usize) -> Result<Vec<Known>, AllocError>
    ensures { IfOk result (λ knowns. knowns.items ≡ first_knowns count) }
{
    let mut knowns = Vec::new(alloc);
    knowns.push(known_as(KindNo::PERSON))?;
    knowns.resize(FIRST_OF_AUTHOR, known_as(KindNo::DIRECTION))?;
    if count > FIRST_OF_AUTHOR {
        knowns.resize(count, UNKNOWN)?;
    }
    Ok(knowns)
}

/// What is known of an object.
pub fn known_at(knowns: &[Known], object: usize) -> Known
    ensures { result ≡ known_at knowns.now object }
{
    match knowns.get(object) {
        Some(known) => *known,
        None => UNKNOWN,
    }
}

#[tactic(auto, using(crate::proofs::Setting::set_past))]
fn keep(knowns: &mut [Known], object: usize, known: Known)
    ensures { knowns.new ≡ slice_set knowns.old object known }
{
    if object < knowns.len() {
        knowns[object] = known;
    }
}

/// What is demanded with one demand more.
fn deepen(parents: &[Option<usize>], demanded: Demanded, kind: usize) -> Demanded
    ensures { result ≡ deepen parents.now demanded kind }
{
    match demanded {
        Demanded::Nothing => Demanded::Deepest(kind),
        Demanded::Parted => Demanded::Parted,
        Demanded::Deepest(deepest) => {
            if is_under(parents, deepest, kind) {
                Demanded::Deepest(deepest)
            } else if is_under(parents, kind, deepest) {
                Demanded::Deepest(kind)
            } else {
                Demanded::Parted
            }
        }
    }
}

/// Demands a kind of an object, and tells whether that lies off the path of the earlier demands.
fn add_demand(scope: &Scope<'_>, knowns: &mut [Known], object: &[u8], kind: usize) -> bool
    ensures knowns { knowns.new ≡ with_demand scope.now knowns.old object.now kind }
    ensures off { result ≡ is_parted (deepened scope.now knowns.old object.now kind) }
{
    let number = scope.object(object);
    let known = known_at(knowns, number);
    let demanded = deepen(scope.parents(), known.demanded, kind);
    keep(knowns, number, Known { demanded, ..known });
    matches!(demanded, Demanded::Parted)
}

/// Demands a kind, and tells whether that is off; one that isn't there says nothing.
fn add_kind(scope: &Scope<'_>, knowns: &mut [Known], demand: &Demand) -> bool
    ensures knowns { knowns.new ≡ with_kind scope.now knowns.old demand.now }
    ensures off { result ≡ is_off scope.now knowns.old (Demands demand.now) }
{
    match scope.kind_named(demand.kind.as_slice()) {
        None => false,
        Some(kind) => add_demand(scope, knowns, demand.object.as_slice(), kind),
    }
}

/// Demands a room, unless a door is demanded, and tells whether that is off.
fn add_room(scope: &Scope<'_>, knowns: &mut [Known], object: &[u8]) -> bool
    ensures knowns { knowns.new ≡ with_room scope.now knowns.old object.now }
    ensures off { result ≡ (not (has_name scope.now.doors object.now) && is_parted (deepened scope.now knowns.old object.now room_kind)) }
{
    if scope.is_door(object) {
        return false;
    }
    add_demand(scope, knowns, object, KindNo::ROOM.get() as usize)
}

fn add_holder(scope: &Scope<'_>, knowns: &mut [Known], placing: &Placing)
    ensures { knowns.new ≡ with_holder scope.now knowns.old placing.now }
{
    if let Rel::In = placing.relation {
        let object = scope.object(placing.holder.as_slice());
        let demanded = known_at(knowns, object).demanded;
        let holds = true;
        keep(knowns, object, Known { demanded, holds });
    }
}

/// Adds what a fact tells of an object, and tells whether it demands what lies off the path of the earlier demands.
fn add_fact(scope: &Scope<'_>, knowns: &mut [Known], fact: &Fact) -> bool
    ensures knowns { knowns.new ≡ with_known scope.now knowns.old fact.now }
    ensures off { result ≡ is_off scope.now knowns.old fact.now }
{
    match fact {
        Fact::Demands(demand) => add_kind(scope, knowns, demand),
        Fact::RoomUnlessDoor(object) => add_room(scope, knowns, object.as_slice()),
        Fact::Placed(placing) => {
            add_holder(scope, knowns, placing);
            false
        }
        _ => false,
    }
}

/// What is known of each object, and the lowest line of a demand that lies off the path of the earlier ones.
#[derive(Drop)]
pub struct AllKnown {
    pub knowns: Vec<Known>,
    pub off_path: Option<u32>,
}

/// What the claims tell of each object.
pub fn known_by(alloc: Global, scope: &Scope<'_>, claims: &[Claim]) -> Result<AllKnown, AllocError>
    ensures knowns { IfOk result (λ known. known.knowns.items ≡ knowns_of scope.now claims.now) }
    ensures off { IfOk result (λ known. known.off_path ≡ off_path scope.now claims.now) }
{
    let mut knowns = first_knowns(alloc, scope.count())?;
    let mut off_path = None;
    let mut rest = claims;
    while let [claim, after @ ..] = rest {
        let is_off = add_fact(scope, knowns.as_mut_slice(), &claim.fact);
        off_path = lower(is_off, claim.line, off_path);
        rest = after;
    }
    Ok(AllKnown { knowns, off_path })
}

/// A thing, or a container where something is in it.
fn thing_or_container(holds: bool) -> usize
    ensures { result ≡ thing_or_container holds }
{
    if holds { 4 } else { 0 }
}

/// The kind of an object of which this is known.
pub fn kind_of(known: Known) -> usize
    ensures { result ≡ kind_of known }
{
    match known.demanded {
        Demanded::Nothing => thing_or_container(known.holds),
        Demanded::Deepest(0) => thing_or_container(known.holds),
        Demanded::Deepest(kind) => kind,
        Demanded::Parted => 0,
    }
}

/// Whether the demands of an object lie on no one path.
pub fn is_parted_at(knowns: &[Known], object: usize) -> bool
    ensures { result ≡ is_parted_at knowns.now object }
{
    match knowns.get(object) {
        Some(known) => matches!(known.demanded, Demanded::Parted),
        None => false,
    }
}

/// Whether an object is of a kind or of one below it.
pub fn is_of(parents: &[Option<usize>], knowns: &[Known], kind: KindNo, object: usize) -> bool
    ensures { result ≡ is_of parents.now knowns.now kind object }
{
    match knowns.get(object) {
        Some(known) => is_under(parents, kind_of(*known), kind.get() as usize),
        None => false,
    }
}
