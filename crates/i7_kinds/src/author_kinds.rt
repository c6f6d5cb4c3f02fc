//! The kinds of a source, and which kinds there may not be.
ghost use Rattle.std.specs.Prelude.{◌≡◌, IfOk, OnOk, map};
ghost use Rattle.world_meaning.specs.Kinds.{built_in_parents, is_under};
ghost use Rattle.i7_kinds.specs.KindClaims.{AreSmallKinds, IsSmallKind, is_cycle, is_kind_too_many, is_unknown, kind_cycle, kind_too_many, parents_of, unknown_kind, with_parent};

use i7_claims::{Claim, Fact, lower, number_in};
use object_words::Strings;
use std::alloc::{AllocError, Global};
use world_meaning::{KINDS, KindNo, KindRow};

/// The most kinds.
const MOST_KINDS: usize = 100;

/// Whether a fact names a kind that isn't there.
fn is_unknown(names: &Strings, fact: &Fact) -> bool
    ensures { result ≡ is_unknown names.now fact.now }
{
    match fact {
        Fact::Lies(lying) => !names.contains(lying.parent.as_slice()),
        Fact::CanBe(grant) => !names.contains(grant.kind.as_slice()),
        Fact::HasNumber(grant) => !names.contains(grant.kind.as_slice()),
        Fact::HasValue(grant) => !names.contains(grant.kind.as_slice()),
        Fact::Demands(demand) => !names.contains(demand.kind.as_slice()),
        Fact::Usually(usual) => !names.contains(usual.kind.as_slice()),
        Fact::Unread(_) => true,
        _ => false,
    }
}

/// The lowest line that names a kind that isn't there.
pub fn unknown_kind(names: &Strings, claims: &[Claim]) -> Option<u32>
    ensures { result ≡ unknown_kind names.now claims.now }
{
    let mut found = None;
    let mut rest = claims;
    while let [claim, after @ ..] = rest {
        found = lower(is_unknown(names, &claim.fact), claim.line, found);
        rest = after;
    }
    found
}

fn wide(number: Option<u8>) -> Option<usize>
    ensures { result ≡ number }
{
    match number {
        None => None,
        Some(number) => Some(number as usize),
    }
}

fn parents_in(alloc: Global, kinds: &[KindRow<'_>]) -> Result<Vec<Option<usize>>, AllocError>
    ensures { IfOk result (λ parents. parents.items ≡ map (λ kind. kind.1) kinds.now) }
{
    kinds.iter().map(|kind| wide(kind.1)).collect(alloc)
}

/// Of each built-in kind, by number, the kind above it.
#[tactic(auto, unfolding(world_meaning::specs::Kinds::built_in_parents))]
fn built_in_parents(alloc: Global) -> Result<Vec<Option<usize>>, AllocError>
    ensures { IfOk result (λ parents. parents.items ≡ built_in_parents) }
{
    parents_in(alloc, &KINDS)
}

fn add_parent(
    names: &Strings,
    parents: &mut Vec<Option<usize>>,
    fact: &Fact,
) -> Result<(), AllocError>
    ensures { OnOk result (parents.new.items ≡ with_parent names.now parents.old.items fact.now) }
{
    match fact {
        Fact::Lies(lying) => {
            parents.push(Some(number_in(names, lying.parent.as_slice())))?;
            Ok(())
        }
        _ => Ok(()),
    }
}

/// Of each kind, by number, the kind above it.
pub fn parents_of(
    alloc: Global,
    names: &Strings,
    claims: &[Claim],
) -> Result<Vec<Option<usize>>, AllocError>
    ensures { IfOk result (λ parents. parents.items ≡ parents_of names.now claims.now) }
{
    let mut parents = built_in_parents(alloc)?;
    let mut rest = claims;
    while let [claim, after @ ..] = rest {
        add_parent(names, &mut parents, &claim.fact)?;
        rest = after;
    }
    Ok(parents)
}

/// Whether a kind lies under another, or is it.
#[tactic(auto, unfolding(world_meaning::specs::Kinds::is_under))]
pub fn is_under(parents: &[Option<usize>], kind: usize, other: usize) -> bool
    ensures { result ≡ is_under parents.now kind other }
{
    let mut at = kind;
    let mut left = parents;
    while let [_, after @ ..] = left {
        if at == other {
            return true;
        }
        match parents.get(at) {
            Some(Some(parent)) => at = *parent,
            _ => return false,
        }
        left = after;
    }
    at == other
}

/// Whether a kind closes a cycle with those before it.
fn is_cycle(names: &Strings, parents: &[Option<usize>], fact: &Fact) -> bool
    ensures { result ≡ is_cycle names.now parents.now fact.now }
{
    match fact {
        Fact::Lies(lying) => {
            let parent = number_in(names, lying.parent.as_slice());
            is_under(parents, parent, parents.len())
        }
        _ => false,
    }
}

/// The lowest line of a kind that closes a cycle with those before it.
pub fn kind_cycle(
    alloc: Global,
    names: &Strings,
    claims: &[Claim],
) -> Result<Option<u32>, AllocError>
    ensures { IfOk result (λ found. found ≡ kind_cycle names.now claims.now) }
{
    let mut parents = built_in_parents(alloc)?;
    let mut found = None;
    let mut rest = claims;
    while let [claim, after @ ..] = rest {
        let closes = is_cycle(names, parents.as_slice(), &claim.fact);
        found = lower(closes, claim.line, found);
        add_parent(names, &mut parents, &claim.fact)?;
        rest = after;
    }
    Ok(found)
}

fn is_kind_too_many(count: usize, fact: &Fact) -> bool
    ensures { result ≡ is_kind_too_many count fact.now }
{
    match fact {
        Fact::Lies(_) => count >= MOST_KINDS,
        _ => false,
    }
}

/// The lowest line of a kind that is one too many.
pub fn kind_too_many(claims: &[Claim]) -> Option<u32>
    ensures { result ≡ kind_too_many claims.now }
{
    let mut count = KINDS.len();
    let mut found = None;
    let mut rest = claims;
    while let [claim, after @ ..] = rest {
        found = lower(is_kind_too_many(count, &claim.fact), claim.line, found);
        if let Fact::Lies(_) = &claim.fact {
            count += 1;
        }
        rest = after;
    }
    found
}

fn kind_no(parent: Option<usize>) -> Option<KindNo>
    requires { IsSmallKind parent }
    ensures { result ≡ parent }
{
    match parent {
        None => None,
        Some(parent) => Some(KindNo::new(parent as u8)),
    }
}

pub fn kind_nos(alloc: Global, parents: &[Option<usize>]) -> Result<Vec<Option<KindNo>>, AllocError>
    requires { AreSmallKinds parents.now }
    ensures { IfOk result (λ kinds. kinds.items ≡ parents.now) }
{
    let mut kinds = Vec::new(alloc);
    let mut rest = parents;
    while let [parent, after @ ..] = rest {
        kinds.push(kind_no(*parent))?;
        rest = after;
    }
    Ok(kinds)
}
