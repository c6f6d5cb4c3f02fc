//! The lines at which sentences say together what they may not.
ghost use Rattle.std.specs.Prelude.{◌≡◌, IfOk};
ghost use Rattle.i7_kinds.specs.Demands.{descriptions_of, second_target, wrong_kind};
ghost use Rattle.i7_kinds.specs.Described.{descriptions_in};
ghost use Rattle.i7_kinds.specs.Doors.{door_twice};
ghost use Rattle.i7_kinds.specs.KindClaims.{kind_cycle};
ghost use Rattle.i7_kinds.specs.Knowns.{off_path as off_path_of};
ghost use Rattle.i7_claims.specs.NameScans.{book_twice, list_twice, name_twice};
ghost use Rattle.i7_kinds.specs.Places.{holder_cycle, second_place};
ghost use Rattle.i7_claims.specs.Scans.{earlier};
ghost use Rattle.i7_claims.specs.Sorts.{name_too_many};
ghost use Rattle.i7_kinds.specs.StatedWays.{stated};
ghost use Rattle.i7_kinds.specs.Suits.{unsuited};
ghost use Rattle.i7_kinds.specs.Tales.{faults_of, said_twice};
ghost use Rattle.i7_kinds.specs.Values.{value_twice};
ghost use Rattle.i7_kinds.specs.declared.values.Bearer.TheVariants.{Objects, Kinds, Variables};

use crate::author_kinds::{kind_cycle, kind_too_many, unknown_kind};
use crate::cycles::holder_cycle;
use crate::descriptions::Descriptions;
use crate::doors::door_twice;
use crate::kinds::wrong_kind;
use crate::knowns::Known;
use crate::places::second_place;
use crate::scope::Scope;
use crate::suits::unsuited;
use crate::value_kinds::unlisted;
use crate::values::{Bearer, value_twice};
use crate::ways::Ways;
use i7_claims::{
    Claim, NumberedSentence, Sort, book_twice, earlier, list_too_long, list_twice, name_twice,
    too_many_as,
};
use std::alloc::{AllocError, Global};

/// The lowest line of each fault.
#[derive(Clone, Copy)]
pub struct Faults {
    /// A name, a list of values, a description or a value that is a second one.
    pub twice: Option<u32>,
    /// A kind that isn't there.
    pub unknown: Option<u32>,
    /// A kind or a place that closes a cycle.
    pub cycle: Option<u32>,
    /// A demand off the path of earlier ones, or what the kinds don't allow.
    pub wrong: Option<u32>,
    /// A second place of an object or of an exit, or a door's rooms again.
    pub second: Option<u32>,
    /// A name that is one too many, or a list of values that is too long.
    pub too_many: Option<u32>,
    /// A kind of value without values.
    pub unlisted: Option<u32>,
}

/// The lowest line of a name that is one too many of its sort, or of a list of values that is too long.
fn name_too_many(alloc: Global, claims: &[Claim]) -> Result<Option<u32>, AllocError>
    ensures { IfOk result (λ line. line ≡ name_too_many claims.now) }
{
    let either_or = too_many_as(alloc, Sort::EitherOr, claims)?;
    let number = too_many_as(alloc, Sort::Number, claims)?;
    let variable = too_many_as(alloc, Sort::Variable, claims)?;
    let rulebook = too_many_as(alloc, Sort::Rulebook, claims)?;
    let scene = too_many_as(alloc, Sort::Scene, claims)?;
    let kind = too_many_as(alloc, Sort::ValueKind, claims)?;
    let values = earlier(kind, list_too_long(claims));
    let others = earlier(variable, earlier(rulebook, earlier(scene, values)));
    Ok(earlier(either_or, earlier(number, others)))
}

/// The lowest line of what is a second name, list of values, description or value.
fn twice(
    alloc: Global,
    scope: &Scope<'_>,
    claims: &[Claim],
    descriptions: &Descriptions<'_>,
) -> Result<Option<u32>, AllocError>
    ensures { IfOk result (λ line. line ≡ said_twice scope.now claims.now (descriptions_in descriptions.now)) }
{
    let name = name_twice(alloc, scope.built_in(), claims)?;
    let book = book_twice(alloc, claims)?;
    let list = list_twice(alloc, claims)?;
    let value = value_twice(alloc, Bearer::Objects, scope, claims)?;
    let usual = value_twice(alloc, Bearer::Kinds, scope, claims)?;
    let start = value_twice(alloc, Bearer::Variables, scope, claims)?;
    let said = earlier(descriptions.second(), earlier(value, earlier(usual, start)));
    Ok(earlier(name, earlier(book, earlier(list, said))))
}

/// The lowest line of what closes a cycle.
fn cycle(alloc: Global, scope: &Scope<'_>, claims: &[Claim]) -> Result<Option<u32>, AllocError>
    ensures { IfOk result (λ line. line ≡ earlier (kind_cycle scope.now.kinds claims.now) (holder_cycle scope.now.objects claims.now)) }
{
    let kind = kind_cycle(alloc, scope.kinds(), claims)?;
    let holder = holder_cycle(alloc, scope, claims)?;
    Ok(earlier(kind, holder))
}

/// The lowest line of what the kinds don't allow, of which one off the path of the earlier demands is known.
fn wrong(
    scope: &Scope<'_>,
    knowns: &[Known],
    off_path: Option<u32>,
    claims: &[Claim],
    statements: &[NumberedSentence],
) -> Option<u32>
    ensures { result ≡ earlier off_path (earlier (unsuited scope.now knowns.now claims.now) (wrong_kind scope.now.parents knowns.now statements.now)) }
{
    let unsuited = unsuited(scope, knowns, claims);
    let wrong = wrong_kind(scope.parents(), knowns, statements);
    earlier(off_path, earlier(unsuited, wrong))
}

/// The lowest line of what is a second place, or tells the rooms of a door again.
fn second(
    alloc: Global,
    scope: &Scope<'_>,
    claims: &[Claim],
    ways: &Ways<'_>,
) -> Result<Option<u32>, AllocError>
    ensures { IfOk result (λ line. line ≡ earlier (second_target (stated ways.now)) (earlier (second_place scope.now.objects claims.now) (door_twice claims.now))) }
{
    let place = second_place(alloc, scope, claims)?;
    let door = door_twice(alloc, claims)?;
    Ok(earlier(ways.second_target(), earlier(place, door)))
}

/// The faults of a source's claims and statements.
pub fn faults_of(
    alloc: Global,
    scope: &Scope<'_>,
    knowns: &[Known],
    off_path: Option<u32>,
    claims: &[Claim],
    descriptions: &Descriptions<'_>,
    ways: &Ways<'_>,
) -> Result<Faults, AllocError>
    requires off { off_path ≡ off_path_of scope.now claims.now }
    requires described { descriptions_in descriptions.now ≡ descriptions_of scope.now.parents knowns.now (stated ways.now) }
    ensures { IfOk result (λ faults. faults ≡ faults_of scope.now knowns.now claims.now (stated ways.now)) }
{
    Ok(Faults {
        twice: twice(alloc, scope, claims, descriptions)?,
        unknown: unknown_kind(scope.kinds(), claims),
        cycle: cycle(alloc, scope, claims)?,
        wrong: wrong(scope, knowns, off_path, claims, ways.statements()),
        second: second(alloc, scope, claims, ways)?,
        too_many: earlier(kind_too_many(claims), name_too_many(alloc, claims)?),
        unlisted: unlisted(claims),
    })
}
