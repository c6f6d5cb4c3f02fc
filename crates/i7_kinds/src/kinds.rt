//! What the kinds of objects don't allow: ways of what is no room, doors that are none, and texts that describe no room.
ghost use Rattle.std.specs.Prelude.{◌≡◌};
ghost use Rattle.i7_kinds.specs.Demands.{is_door, is_no_room, is_room, is_wrong, is_wrong_door, is_wrong_subject, is_wrong_way, wrong_kind};

use crate::descriptions::subject_of;
use crate::knowns::{Known, is_of, is_parted_at};
use i7_claims::{Numbered, NumberedDoor, NumberedSentence};
use world_meaning::KindNo;

/// Whether an object is a room.
pub fn is_room(parents: &[Option<usize>], knowns: &[Known], object: usize) -> bool
    ensures { result ≡ is_room parents.now knowns.now object }
{
    is_of(parents, knowns, KindNo::ROOM, object)
}

/// Whether an object is a door.
fn is_door(parents: &[Option<usize>], knowns: &[Known], object: usize) -> bool
    ensures { result ≡ is_door parents.now knowns.now object }
{
    is_of(parents, knowns, KindNo::DOOR, object)
}

/// Whether an object, where its kind is known, is no room.
fn is_no_room(parents: &[Option<usize>], knowns: &[Known], object: usize) -> bool
    ensures { result ≡ is_no_room parents.now knowns.now object }
{
    !is_parted_at(knowns, object) && !is_room(parents, knowns, object)
}

/// Whether a text behind a sentence about this object, or about none, describes no room.
fn is_wrong_subject(parents: &[Option<usize>], knowns: &[Known], before: Option<usize>) -> bool
    ensures { result ≡ is_wrong_subject parents.now knowns.now before }
{
    match before {
        None => true,
        Some(object) => is_no_room(parents, knowns, object),
    }
}

/// Whether a way, where the kinds of both ends are known, isn't between rooms.
fn is_wrong_way(parents: &[Option<usize>], knowns: &[Known], subject: usize, room: usize) -> bool
    ensures { result ≡ is_wrong_way parents.now knowns.now subject room }
{
    let is_parted = is_parted_at(knowns, subject) || is_parted_at(knowns, room);
    !is_parted && !(is_room(parents, knowns, subject) && is_room(parents, knowns, room))
}

/// Whether a door, where the kinds of all three are known, isn't one between rooms.
fn is_wrong_door(parents: &[Option<usize>], knowns: &[Known], door: NumberedDoor) -> bool
    ensures { result ≡ is_wrong_door parents.now knowns.now door.door door.first.room door.second.room }
{
    let first = door.first.room;
    let second = door.second.room;
    let is_parted = is_parted_at(knowns, door.door)
        || (is_parted_at(knowns, first) || is_parted_at(knowns, second));
    let are_rooms = is_room(parents, knowns, first) && is_room(parents, knowns, second);
    !is_parted && !(is_door(parents, knowns, door.door) && are_rooms)
}

/// Whether the kinds don't allow a statement behind one about this object or none.
fn is_wrong(
    parents: &[Option<usize>],
    knowns: &[Known],
    before: Option<usize>,
    said: &Numbered,
) -> bool
    ensures { result ≡ is_wrong parents.now knowns.now before said.now }
{
    match said {
        Numbered::Aside | Numbered::Being(_) | Numbered::Describes { .. } => false,
        Numbered::Description(_) => is_wrong_subject(parents, knowns, before),
        Numbered::Way(way) => is_wrong_way(parents, knowns, way.subject, way.room),
        Numbered::Door(door) => is_wrong_door(parents, knowns, *door),
    }
}

/// The line of the first statement that the kinds don't allow.
pub fn wrong_kind(
    parents: &[Option<usize>],
    knowns: &[Known],
    statements: &[NumberedSentence],
) -> Option<u32>
    ensures { result ≡ wrong_kind parents.now knowns.now statements.now }
{
    let mut subject = None;
    let mut rest = statements;
    while let [statement, after @ ..] = rest {
        if is_wrong(parents, knowns, subject, &statement.said) {
            return Some(statement.line);
        }
        subject = subject_of(&statement.said);
        rest = after;
    }
    None
}
