//! Which places the kinds of objects allow, and where the player begins.
ghost use Rattle.std.specs.Prelude.{◌≡◌, ◌&&◌, ◌==◌, map, slice_get};
ghost use Rattle.std.specs.List.{list_any};
ghost use Rattle.world_meaning.specs.Placing.{can_be_held, can_hold, keeps_player};
ghost use Rattle.i7_kinds.specs.Knowns.{kinds_known};
ghost use Rattle.world_meaning.specs.Kinds.{is_under as lies_under};
ghost use Rattle.i7_kinds.specs.Grants.{built_in_bases};
ghost use Rattle.i7_kinds.specs.Suits.{can_be, first_room, kinds_in, is_lacking, is_never, is_never_said, is_unsuited, lacks, room_from, suits, unsuited, with_player};

use crate::author_kinds::is_under;
use crate::grants::Given;
use crate::knowns::{Known, is_of, is_parted_at, kind_of, known_at};
use crate::places::{Spot, place_of, put};
use crate::scope::Scope;
use i7_claims::{Claim, FIRST_OF_AUTHOR, Fact, Having, Usual, Value, lower};
use world_meaning::{KindNo, PROPERTIES, PropertyRow, Rel};

fn can_hold(parents: &[Option<usize>], knowns: &[Known], place: Spot) -> bool
    ensures { result ≡ can_hold (kinds_known parents.now knowns.now) place.relation place.holder }
{
    let holder = place.holder;
    match place.relation {
        Rel::In => {
            is_of(parents, knowns, KindNo::ROOM, holder)
                || is_of(parents, knowns, KindNo::CONTAINER, holder)
        }
        Rel::On => is_of(parents, knowns, KindNo::SUPPORTER, holder),
        Rel::Carried => is_of(parents, knowns, KindNo::PERSON, holder),
        Rel::Worn => is_of(parents, knowns, KindNo::PERSON, holder),
        Rel::Part => is_of(parents, knowns, KindNo::THING, holder),
    }
}

fn can_be_held(parents: &[Option<usize>], knowns: &[Known], object: usize) -> bool
    ensures { result ≡ can_be_held (kinds_known parents.now knowns.now) object }
{
    is_of(parents, knowns, KindNo::THING, object) && !is_of(parents, knowns, KindNo::DOOR, object)
}

/// The player is directly in a room.
fn keeps_player(parents: &[Option<usize>], knowns: &[Known], object: usize, place: Spot) -> bool
    ensures { result ≡ keeps_player (kinds_known parents.now knowns.now) object place }
{
    object != 0
        || (matches!(place.relation, Rel::In) && is_of(parents, knowns, KindNo::ROOM, place.holder))
}

/// Whether the kinds allow an object's place.
fn suits(parents: &[Option<usize>], knowns: &[Known], object: usize, place: Spot) -> bool
    ensures { result ≡ suits (kinds_known parents.now knowns.now) object place }
{
    can_be_held(parents, knowns, object)
        && can_hold(parents, knowns, place)
        && keeps_player(parents, knowns, object, place)
}

/// The kinds that have a built-in property.
fn base_of<'a>(rows: &[PropertyRow<'a>], property: usize) -> &'a [u8]
    ensures { result.now ≡ kinds_in (slice_get (map (λ row. row.2.now) rows.now) property) }
{
    match rows.get(property) {
        None => &[],
        Some(row) => row.2,
    }
}

fn is_under_base(parents: &[Option<usize>], kind: usize, base: &[u8]) -> bool
    ensures { result ≡ list_any (λ other. lies_under parents.now kind other) base.now }
{
    base.iter()
        .any(|other| is_under(parents, kind, *other as usize))
}

fn is_given(parents: &[Option<usize>], givens: &[Given], kind: usize, property: usize) -> bool
    ensures { result ≡ list_any (λ given. (given.property == property) && lies_under parents.now kind given.kind) givens.now }
{
    givens.iter().any(|given| given.property == property && is_under(parents, kind, given.kind))
}

/// Whether objects of a kind have a property.
#[tactic(auto, unfolding(crate::specs::Grants::built_in_bases))]
fn can_be(scope: &Scope<'_>, kind: usize, property: usize) -> bool
    ensures { result ≡ can_be scope.now kind property }
{
    is_under_base(scope.parents(), kind, base_of(&PROPERTIES, property))
        || is_given(scope.parents(), scope.givens(), kind, property)
}

/// Whether what is said of a kind of value is none of its values.
fn is_never_said(value: Value) -> bool
    ensures { result ≡ is_never_said value }
{
    matches!(value, Value::Never)
}

/// Whether the kind of an object is known, and lacks a property, or the value is none of the property's.
fn is_lacking(scope: &Scope<'_>, knowns: &[Known], having: &Having) -> bool
    ensures { result ≡ is_lacking scope.now knowns.now having.now }
{
    let object = scope.object(having.object.as_slice());
    let property = scope.property(having.property.as_slice());
    !is_parted_at(knowns, object)
        && (is_never_said(having.value)
            || !can_be(scope, kind_of(known_at(knowns, object)), property))
}

/// Whether a kind lacks the property of which something is usual.
fn lacks(scope: &Scope<'_>, usual: &Usual) -> bool
    ensures { result ≡ lacks scope.now usual.now }
{
    let kind = scope.kind(usual.kind.as_slice());
    let property = scope.property(usual.property.as_slice());
    !can_be(scope, kind, property)
}

/// Whether it does, or the value is none of the property's.
fn is_never(scope: &Scope<'_>, usual: &Usual) -> bool
    ensures { result ≡ is_never scope.now usual.now }
{
    is_never_said(usual.value) || lacks(scope, usual)
}

fn is_unsuited(scope: &Scope<'_>, knowns: &[Known], fact: &Fact) -> bool
    ensures { result ≡ is_unsuited scope.now knowns.now fact.now }
{
    match fact {
        Fact::Placed(placing) => {
            let thing = scope.object(placing.thing.as_slice());
            let place = place_of(scope, placing);
            let is_parted = is_parted_at(knowns, thing) || is_parted_at(knowns, place.holder);
            !is_parted && !suits(scope.parents(), knowns, thing, place)
        }
        Fact::Has(having) => is_lacking(scope, knowns, having),
        Fact::Usually(usual) => is_never(scope, usual),
        _ => false,
    }
}

/// The lowest line of a place that the kinds don't allow, of a property that they lack, or of a value that is none of the property's.
pub fn unsuited(scope: &Scope<'_>, knowns: &[Known], claims: &[Claim]) -> Option<u32>
    ensures { result ≡ unsuited scope.now knowns.now claims.now }
{
    let mut found = None;
    let mut rest = claims;
    while let [claim, after @ ..] = rest {
        found = lower(is_unsuited(scope, knowns, &claim.fact), claim.line, found);
        rest = after;
    }
    found
}

/// The first room among the author's objects.
fn room_among(parents: &[Option<usize>], knowns: &[Known]) -> Option<usize>
    ensures { result ≡ room_from parents.now 13 knowns.now }
{
    let mut object = FIRST_OF_AUTHOR;
    let mut rest = knowns;
    while let [known, after @ ..] = rest {
        if is_under(parents, kind_of(*known), KindNo::ROOM.get() as usize) {
            return Some(object);
        }
        object += 1;
        rest = after;
    }
    None
}

/// The lowest-numbered room.
pub fn first_room(parents: &[Option<usize>], knowns: &[Known]) -> Option<usize>
    ensures { result ≡ first_room parents.now knowns.now }
{
    match knowns.get(FIRST_OF_AUTHOR..) {
        Some(authors) => room_among(parents, authors),
        None => None,
    }
}

/// Puts the player where a sentence says, and else in a room.
pub fn put_player(places: &mut [Option<Spot>], room: Option<usize>)
    ensures { places.new ≡ with_player places.old room }
{
    if let Some(holder) = room {
        put(
            places,
            0,
            Spot {
                relation: Rel::In,
                holder,
            },
        );
    }
}
