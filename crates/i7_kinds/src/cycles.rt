//! Where sentences put an object in what stands in it, by all the places told so far.
ghost use Rattle.std.specs.Prelude.{◌≡◌, ◌++◌, ◌≤◌, length, slice_set, take, true, IfOk, None, OnOk};
ghost use Rattle.i7_claims.specs.Scans.{lower};
ghost use Rattle.i7_kinds.specs.Cycles.{contents_by, emptied, encloses, is_unseen, nothing_in, things_in, unseen, with_put, with_thing};
ghost use Rattle.i7_kinds.specs.Places.{holder_cycle, is_holder_cycle};

use crate::ranks::{ranks_of, rise};
use crate::scope::Scope;
use i7_claims::{Claim, Fact, lower};
use std::alloc::{AllocError, Global};
use std::collections::VecDeque;
use std::marker::Model;

/// The things that were put in an object, by their numbers.
#[derive(Drop)]
pub struct Held {
    things: Vec<usize>,
}

impl Model for Held {
    ghost use Rattle.std.specs.Prelude.{List, ℕ};

    ghost Value = { List ℕ };

    ghost view = { λ held. held.things.items };
}

impl Held {
    ghost use Rattle.std.specs.Prelude.{◌≡◌, ◌++◌, ◌∷◌, [], OnOk};

    fn new(alloc: Global) -> Held
        ensures { result ≡ [] }
    {
        Held {
            things: Vec::new(alloc),
        }
    }

    /// These things.
    pub fn things(&self) -> &[usize]
        ensures { result.now ≡ self.now }
    {
        self.things.as_slice()
    }

    fn add(&mut self, thing: usize) -> Result<(), AllocError>
        ensures { OnOk result (self.new ≡ self.old ++ thing ∷ []) }
    {
        self.things.push(thing)?;
        Ok(())
    }
}

/// So many objects and one more, nothing in them.
fn nothing_in(alloc: Global, count: usize) -> Result<Vec<Held>, AllocError>
    ensures { IfOk result (λ contents. contents.items ≡ nothing_in count) }
{
    let mut contents = Vec::new(alloc);
    for _ in 0..count {
        contents.push(Held::new(alloc))?;
    }
    contents.push(Held::new(alloc))?;
    Ok(contents)
}

/// What was put in an object.
fn things_in(contents: &[Held], holder: usize) -> &[usize]
    ensures { result.now ≡ things_in contents.now holder }
{
    match contents.get(holder) {
        None => &[],
        Some(held) => held.things(),
    }
}

/// Puts a thing in a holder.
fn put_in(contents: &mut Vec<Held>, thing: usize, holder: usize) -> Result<(), AllocError>
    ensures { OnOk result (contents.new.items ≡ with_thing contents.old.items thing holder) }
{
    match contents.get_mut(holder) {
        None => Ok(()),
        Some(held) => held.add(thing),
    }
}

/// Adds things to those that are left to go through.
fn add_all(todo: &mut VecDeque<usize>, things: &[usize]) -> Result<(), AllocError>
    ensures { OnOk result (todo.new.items ≡ todo.old.items ++ things.now) }
{
    let mut rest = things;
    while let [thing, after @ ..] = rest {
        todo.push_back(*thing)?;
        rest = after;
    }
    Ok(())
}

/// Whether an object is one that wasn't seen.
fn is_unseen(seen: &[bool], object: usize) -> bool
    ensures { result ≡ is_unseen seen.now object }
{
    match seen.get(object) {
        None => false,
        Some(is) => !*is,
    }
}

#[tactic(auto, using(crate::proofs::Setting::set_past))]
fn see(seen: &mut Vec<bool>, object: usize)
    ensures { seen.new.items ≡ slice_set seen.old.items object true }
{
    if object < seen.len() {
        seen[object] = true;
    }
}

/// Adds what is in an object that wasn't seen, and sees it.
fn open(
    contents: &[Held],
    seen: &mut Vec<bool>,
    todo: &mut VecDeque<usize>,
    object: usize,
) -> Result<(), AllocError>
    ensures seen { OnOk result (unseen contents.now seen.new.items ≡ emptied (unseen contents.now seen.old.items) object) }
    ensures todo { OnOk result (todo.new.items ≡ todo.old.items ++ things_in (unseen contents.now seen.old.items) object) }
{
    if is_unseen(seen.as_slice(), object) {
        see(seen, object);
        add_all(todo, things_in(contents, object))?;
    }
    Ok(())
}

/// Whether an object is another or has it in it, as a walk through what is in it tells.
fn encloses(
    alloc: Global,
    contents: &[Held],
    object: usize,
    other: usize,
) -> Result<bool, AllocError>
    ensures { IfOk result (λ found. found ≡ encloses contents.now object other) }
{
    let mut seen = vec![in alloc; false; contents.len()]?;
    let mut todo = VecDeque::new(alloc);
    todo.push_back(object)?;
    while let Some(at) = todo.pop_front() {
        if at == other {
            return Ok(true);
        }
        open(contents, &mut seen, &mut todo, at)?;
    }
    Ok(false)
}

/// Puts the thing of a fact in its holder, and tells whether that stood in it.
fn put_closing(
    alloc: Global,
    scope: &Scope<'_>,
    contents: &mut Vec<Held>,
    fact: &Fact,
) -> Result<bool, AllocError>
    ensures put { OnOk result (contents.new.items ≡ with_put scope.now.objects contents.old.items fact.now) }
    ensures closes { IfOk result (λ closes. closes ≡ is_holder_cycle scope.now.objects contents.old.items fact.now) }
{
    match fact {
        Fact::Placed(placing) => {
            let thing = scope.object(placing.thing.as_slice());
            let holder = scope.object(placing.holder.as_slice());
            let closes = encloses(alloc, contents.as_slice(), thing, holder)?;
            put_in(contents, thing, holder)?;
            Ok(closes)
        }
        _ => Ok(false),
    }
}

/// Puts the thing of a fact in its holder.
fn put(scope: &Scope<'_>, contents: &mut Vec<Held>, fact: &Fact) -> Result<(), AllocError>
    ensures { OnOk result (contents.new.items ≡ with_put scope.now.objects contents.old.items fact.now) }
{
    match fact {
        Fact::Placed(placing) => {
            let thing = scope.object(placing.thing.as_slice());
            put_in(contents, thing, scope.object(placing.holder.as_slice()))
        }
        _ => Ok(()),
    }
}

/// What claims put in each object.
fn contents_by(alloc: Global, scope: &Scope<'_>, claims: &[Claim]) -> Result<Vec<Held>, AllocError>
    ensures { IfOk result (λ contents. contents.items ≡ contents_by scope.now.objects claims.now) }
{
    let mut contents = nothing_in(alloc, scope.count())?;
    let mut rest = claims;
    while let [claim, after @ ..] = rest {
        put(scope, &mut contents, &claim.fact)?;
        rest = after;
    }
    Ok(contents)
}

/// Whether objects can be ranked by what claims put in each, so that none of these places closes a cycle.
fn are_ranked(alloc: Global, scope: &Scope<'_>, claims: &[Claim]) -> Result<bool, AllocError>
    ensures { IfOk result (λ ranked. ranked ≡ true → holder_cycle scope.now.objects claims.now ≡ None) }
{
    let contents = contents_by(alloc, scope, claims)?;
    let ranks = ranks_of(alloc, contents.as_slice())?;
    Ok(rise(ranks.as_slice(), contents.as_slice()))
}

/// How many claims there are in front of the first place that closes a cycle, found by halves.
fn quiet_front(alloc: Global, scope: &Scope<'_>, claims: &[Claim]) -> Result<usize, AllocError>
    ensures within { IfOk result (λ front. front ≤ length claims.now) }
    ensures quiet { IfOk result (λ front. holder_cycle scope.now.objects (take front claims.now) ≡ None) }
{
    let mut front = 0;
    let mut end = claims.len();
    while end - front > 1 {
        let half = front + (end - front) / 2;
        if are_ranked(alloc, scope, &claims[..half])? {
            front = half;
        } else {
            end = half;
        }
    }
    Ok(front)
}

/// The lowest line so far with that of a claim, if its place closes a cycle, which isn't asked where it changes nothing.
fn lower_with(
    alloc: Global,
    scope: &Scope<'_>,
    contents: &mut Vec<Held>,
    claim: &Claim,
    found: Option<u32>,
) -> Result<Option<u32>, AllocError>
    ensures put { OnOk result (contents.new.items ≡ with_put scope.now.objects contents.old.items claim.now.fact) }
    ensures lowest { IfOk result (λ next. next ≡ lower (is_holder_cycle scope.now.objects contents.old.items claim.now.fact) claim.now.line found) }
{
    if let Some(line) = found {
        if line <= claim.line {
            put(scope, contents, &claim.fact)?;
            return Ok(found);
        }
    }
    let closes = put_closing(alloc, scope, contents, &claim.fact)?;
    Ok(lower(closes, claim.line, found))
}

/// The lowest line of a place that closes a cycle of holders, behind claims of which none does.
fn lowest_behind(
    alloc: Global,
    scope: &Scope<'_>,
    front: &[Claim],
    claims: &[Claim],
) -> Result<Option<u32>, AllocError>
    requires { holder_cycle scope.now.objects front.now ≡ None }
    ensures { IfOk result (λ found. found ≡ holder_cycle scope.now.objects (front.now ++ claims.now)) }
{
    let mut contents = contents_by(alloc, scope, front)?;
    let mut found = None;
    let mut rest = claims;
    while let [claim, after @ ..] = rest {
        found = lower_with(alloc, scope, &mut contents, claim, found)?;
        rest = after;
    }
    Ok(found)
}

/// The lowest line of a place that closes a cycle of holders. Mostly there is none, as one look at all places tells.
pub fn holder_cycle(
    alloc: Global,
    scope: &Scope<'_>,
    claims: &[Claim],
) -> Result<Option<u32>, AllocError>
    ensures { IfOk result (λ found. found ≡ holder_cycle scope.now.objects claims.now) }
{
    if are_ranked(alloc, scope, claims)? {
        return Ok(None);
    }
    let (front, behind) = claims.split_at(quiet_front(alloc, scope, claims)?);
    lowest_behind(alloc, scope, front, behind)
}
