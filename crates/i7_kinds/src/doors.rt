//! Doors: of which objects sentences demand one, and which sentences tell the rooms of a door again.
ghost use Rattle.std.specs.Prelude.{◌≡◌, IfOk, OnOk};
ghost use Rattle.i7_kinds.specs.Doors.{door_demanded, door_told, door_twice, doors_of, is_door_kind, is_told_again};
ghost use Rattle.i7_claims.specs.Sorts.{with_name};

use crate::author_kinds::is_under;
use i7_claims::{Claim, Fact, lower};
use object_words::Strings;
use std::alloc::{AllocError, Global};
use world_meaning::KindNo;

/// Whether a kind is that of doors, or one below it.
fn is_door_kind(kinds: &Strings, parents: &[Option<usize>], kind: &[u8]) -> bool
    ensures { result ≡ is_door_kind kinds.now parents.now kind.now }
{
    match kinds.place_of(kind) {
        None => false,
        Some(number) => is_under(parents, number, KindNo::DOOR.get() as usize),
    }
}

/// Keeps the object of which a fact demands a door.
fn keep_door(
    alloc: Global,
    kinds: &Strings,
    parents: &[Option<usize>],
    doors: &mut Strings,
    fact: &Fact,
) -> Result<(), AllocError>
    ensures { OnOk result (doors.new ≡ with_name doors.old (door_demanded kinds.now parents.now fact.now)) }
{
    match fact {
        Fact::Demands(demand) => {
            if !is_door_kind(kinds, parents, demand.kind.as_slice()) {
                return Ok(());
            }
            doors.mention(alloc, demand.object.as_slice())
        }
        _ => Ok(()),
    }
}

/// The objects of which doors are demanded.
pub fn doors_of(
    alloc: Global,
    kinds: &Strings,
    parents: &[Option<usize>],
    claims: &[Claim],
) -> Result<Strings, AllocError>
    ensures { IfOk result (λ doors. doors ≡ doors_of kinds.now parents.now claims.now) }
{
    let mut doors = Strings::new(alloc);
    let mut rest = claims;
    while let [claim, after @ ..] = rest {
        keep_door(alloc, kinds, parents, &mut doors, &claim.fact)?;
        rest = after;
    }
    Ok(doors)
}

/// Whether a fact tells the rooms of one of these doors again.
fn is_told_again(doors: &Strings, fact: &Fact) -> bool
    ensures { result ≡ is_told_again doors.now fact.now }
{
    match fact {
        Fact::Between(door) => doors.contains(door.as_slice()),
        _ => false,
    }
}

/// Keeps the door whose rooms a fact tells.
fn keep_told(alloc: Global, doors: &mut Strings, fact: &Fact) -> Result<(), AllocError>
    ensures { OnOk result (doors.new ≡ with_name doors.old (door_told fact.now)) }
{
    match fact {
        Fact::Between(door) => doors.mention(alloc, door.as_slice()),
        _ => Ok(()),
    }
}

/// The lowest line that tells the rooms of a door again.
pub fn door_twice(alloc: Global, claims: &[Claim]) -> Result<Option<u32>, AllocError>
    ensures { IfOk result (λ found. found ≡ door_twice claims.now) }
{
    let mut doors = Strings::new(alloc);
    let mut found = None;
    let mut rest = claims;
    while let [claim, after @ ..] = rest {
        found = lower(is_told_again(&doors, &claim.fact), claim.line, found);
        keep_told(alloc, &mut doors, &claim.fact)?;
        rest = after;
    }
    Ok(found)
}
