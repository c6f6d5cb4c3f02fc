//! The built-in kinds and either-or properties, and which kind lies under which.
ghost use Rattle.std.specs.Prelude.{◌≡◌, IfOk, map};
ghost use Rattle.world_meaning.specs.Kinds.{built_in_parents, is_under, is_under_one};

use std::alloc::{AllocError, Global};
use std::marker::Model;

/// A kind's number: 0 thing, 1 room, 2 direction, then the kinds below them.
#[derive(Clone, Copy, Debug, PartialEq, Eq)]
pub struct KindNo(u8);

impl Model for KindNo {
    ghost use Rattle.std.specs.Prelude.{ℕ};

    ghost Value = { ℕ };

    ghost view = { λ k. k.0 };

    ghost inverse = { λ n. record { 0 = n } };
}

impl KindNo {
    /// The kind of things.
    pub const THING: KindNo = KindNo(0);

    /// The kind of rooms.
    pub const ROOM: KindNo = KindNo(1);

    /// The kind of the twelve directions.
    pub const DIRECTION: KindNo = KindNo(2);

    /// The kind of doors, under thing.
    pub const DOOR: KindNo = KindNo(3);

    /// The kind of containers, under thing.
    pub const CONTAINER: KindNo = KindNo(4);

    /// The kind of supporters, under thing.
    pub const SUPPORTER: KindNo = KindNo(5);

    /// The kind of persons, under thing.
    pub const PERSON: KindNo = KindNo(6);

    /// The kind of devices, under thing.
    pub const DEVICE: KindNo = KindNo(7);

    /// The kind of men, under person.
    pub const MAN: KindNo = KindNo(8);

    /// The kind of women, under person.
    pub const WOMAN: KindNo = KindNo(9);

    /// The kind of this number.
    pub const fn new(number: u8) -> KindNo
        ensures { result ≡ number }
    {
        KindNo(number)
    }

    /// The kind's number.
    pub const fn get(self) -> u8
        ensures { result ≡ self }
    {
        self.0
    }
}

/// The kinds that lie under no other: thing, room and direction.
pub const ROOTS: [u8; 3] = [KindNo::THING.0, KindNo::ROOM.0, KindNo::DIRECTION.0];

/// A kind: its name, and the kind above it.
pub type KindRow<'a> = (&'a [u8], Option<u8>);

/// The built-in kinds, by number.
pub const KINDS: [KindRow<'static>; 10] = [
    (b"thing", None),
    (b"room", None),
    (b"direction", None),
    (b"door", Some(KindNo::THING.0)),
    (b"container", Some(KindNo::THING.0)),
    (b"supporter", Some(KindNo::THING.0)),
    (b"person", Some(KindNo::THING.0)),
    (b"device", Some(KindNo::THING.0)),
    (b"man", Some(KindNo::PERSON.0)),
    (b"woman", Some(KindNo::PERSON.0)),
];

/// An either-or property: its first name and its second, the kinds that have it, rising, and those whose objects
/// it is true of unless a sentence says otherwise.
pub type PropertyRow<'a> = (&'a [u8], Option<&'a [u8]>, &'a [u8], &'a [u8]);

/// The built-in either-or properties, by number.
pub const PROPERTIES: [PropertyRow<'static>; 11] = [
    (
        b"open",
        Some(b"closed"),
        &[KindNo::DOOR.0, KindNo::CONTAINER.0],
        &[KindNo::CONTAINER.0],
    ),
    (
        b"openable",
        Some(b"unopenable"),
        &[KindNo::DOOR.0, KindNo::CONTAINER.0],
        &[KindNo::DOOR.0],
    ),
    (b"transparent", Some(b"opaque"), &[KindNo::CONTAINER.0], &[]),
    (b"lit", Some(b"unlit"), &[KindNo::THING.0], &[]),
    (
        b"lighted",
        Some(b"dark"),
        &[KindNo::ROOM.0],
        &[KindNo::ROOM.0],
    ),
    (b"scenery", None, &[KindNo::THING.0], &[]),
    (
        b"fixed in place",
        Some(b"portable"),
        &[KindNo::THING.0],
        &[KindNo::DOOR.0, KindNo::SUPPORTER.0],
    ),
    (b"wearable", None, &[KindNo::THING.0], &[]),
    (
        b"described",
        Some(b"undescribed"),
        &[KindNo::THING.0],
        &[KindNo::THING.0],
    ),
    (
        b"switched on",
        Some(b"switched off"),
        &[KindNo::DEVICE.0],
        &[],
    ),
    (b"visited", Some(b"unvisited"), &[KindNo::ROOM.0], &[]),
];

fn kind_of(number: Option<u8>) -> Option<KindNo>
    ensures { result ≡ number }
{
    match number {
        None => None,
        Some(number) => Some(KindNo::new(number)),
    }
}

fn parents_in(alloc: Global, rows: &[KindRow<'_>]) -> Result<Vec<Option<KindNo>>, AllocError>
    ensures { IfOk result (λ parents. parents.items ≡ map (λ row. row.1) rows.now) }
{
    rows.iter().map(|row| kind_of(row.1)).collect(alloc)
}

/// Of each built-in kind, by number, the kind above it.
#[tactic(auto, unfolding(crate::specs::Kinds::built_in_parents))]
pub fn built_in_parents(alloc: Global) -> Result<Vec<Option<KindNo>>, AllocError>
    ensures { IfOk result (λ parents. parents.items ≡ built_in_parents) }
{
    parents_in(alloc, &KINDS)
}

/// Whether a kind lies under another, or is it.
#[tactic(auto, unfolding(crate::specs::Kinds::is_under))]
pub fn is_under(parents: &[Option<KindNo>], kind: KindNo, other: KindNo) -> bool
    ensures { result ≡ is_under parents.now kind other }
{
    let mut at = kind;
    let mut left = parents;
    while let [_, after @ ..] = left {
        if at == other {
            return true;
        }
        match parents.get(at.get() as usize) {
            Some(Some(parent)) => at = *parent,
            _ => return false,
        }
        left = after;
    }
    at == other
}

/// Whether a kind lies under one of these, or is it.
pub fn is_under_one(parents: &[Option<KindNo>], others: &[u8], kind: KindNo) -> bool
    ensures { result ≡ is_under_one parents.now others.now kind }
{
    others
        .iter()
        .any(|other| is_under(parents, kind, KindNo::new(*other)))
}
