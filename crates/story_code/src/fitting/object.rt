//! Whether objects fit, and tests whether an object is one of those that a description means.
ghost use Rattle.std.specs.Prelude.{◌≡◌, ◌+◌, ◌≤◌, map, true};
ghost use Rattle.play_meaning.specs.Meant.{adjective_meant, description_meant, object_meant, quality_meant};
ghost use Rattle.story_code.specs.Fits.{adjective_fits, adjectives_fit, description_fits, is_there_fits, object_fits, objects_fit, test_fits, those_fit};

use crate::named::value_count;
use play_meaning::Counts;
use play_meaning::tree::{Adjective, Description, Quality, Referent};
use world_meaning::KindNo;

/// How many operands a run has room for.
pub(crate) const OPERANDS: u8 = 64;

/// How many loops a code opens at most.
pub(crate) const LOOPS: u8 = 9;

/// Whether an object fits inside so many loops, with so much room for operands.
pub(crate) fn object_fits(counts: &Counts, loops: u8, object: &Referent, room: u8) -> bool
    ensures { result ≡ object_fits counts.now loops (object_meant object.now) room }
{
    match object {
        Referent::The(number) => number.get() < counts.objects && room > 0,
        Referent::Turning(number) => *number < loops && room > 0,
        Referent::RoomFrom(direction, from) | Referent::DoorFrom(direction, from) => {
            object_fits(counts, loops, direction, room)
                && object_fits(counts, loops, from, room.saturating_sub(1))
        }
        Referent::Noun | Referent::SecondNoun | Referent::Location | Referent::Nothing => room > 0,
    }
}

/// Whether two objects fit, one behind the other.
pub(crate) fn objects_fit(counts: &Counts, loops: u8, a: &Referent, b: &Referent, room: u8) -> bool
    ensures { result ≡ objects_fit counts.now loops (object_meant a.now) (object_meant b.now) room }
{
    object_fits(counts, loops, a, room) && object_fits(counts, loops, b, room.saturating_sub(1))
}

/// Whether a test fits whether the object is no nothing.
fn is_there_fits(counts: &Counts, loops: u8, object: &Referent, room: u8) -> bool
    ensures { result ≡ is_there_fits (object_fits counts.now loops (object_meant object.now)) room }
{
    object_fits(counts, loops, object, room) && room.saturating_sub(1) > 0
}

/// Whether a test fits whether the object is so.
fn quality_fits(counts: &Counts, loops: u8, object: &Referent, quality: Quality, room: u8) -> bool
    ensures { result ≡ adjective_fits counts.now (object_fits counts.now loops (object_meant object.now)) (quality_meant quality) room }
{
    let is_there = match quality {
        Quality::Is(property, _) => (property as u16) < counts.flags,
        Quality::Valued(kind, value) => value < value_count(counts, kind),
        Quality::Visible | Quality::Touchable => true,
    };
    is_there && object_fits(counts, loops, object, room)
}

/// Whether a test fits whether the object is so, or isn't.
pub(crate) fn adjective_fits(
    counts: &Counts,
    loops: u8,
    object: &Referent,
    adjective: Adjective,
    room: u8,
) -> bool
    ensures { result ≡ adjective_fits counts.now (object_fits counts.now loops (object_meant object.now)) (adjective_meant adjective) room }
{
    if !adjective.denied {
        return quality_fits(counts, loops, object, adjective.quality, room);
    }
    is_there_fits(counts, loops, object, room)
        && quality_fits(
            counts,
            loops,
            object,
            adjective.quality,
            room.saturating_sub(1),
        )
}

/// Whether a test fits whether the object is something, and all of these.
fn adjectives_fit(
    counts: &Counts,
    loops: u8,
    object: &Referent,
    adjectives: &[Adjective],
    room: u8,
) -> bool
    ensures { result ≡ adjectives_fit counts.now (object_fits counts.now loops (object_meant object.now)) (map adjective_meant adjectives.now) room }
{
    match adjectives {
        [] => is_there_fits(counts, loops, object, room),
        [first, rest @ ..] => {
            adjective_fits(counts, loops, object, *first, room)
                && adjectives_fit(counts, loops, object, rest, room.saturating_sub(1))
        }
    }
}

/// Whether a test fits whether the object is of a kind, if one is said, and all of these.
fn those_fit(
    counts: &Counts,
    loops: u8,
    object: &Referent,
    adjectives: &[Adjective],
    kind: Option<KindNo>,
    room: u8,
) -> bool
    ensures { result ≡ those_fit counts.now (object_fits counts.now loops (object_meant object.now)) (map adjective_meant adjectives.now) kind room }
{
    match kind {
        None => adjectives_fit(counts, loops, object, adjectives, room),
        Some(kind) => {
            (kind.get() as u16) < counts.kinds
                && object_fits(counts, loops, object, room)
                && adjectives_fit(counts, loops, object, adjectives, room.saturating_sub(1))
        }
    }
}

/// Whether a test fits whether the object, inside so many loops, is one of those that a description means, whose holder
/// stands inside as many or fewer.
pub(crate) fn description_fits(
    counts: &Counts,
    loops: u8,
    inside: u8,
    object: &Referent,
    description: &Description,
    room: u8,
) -> bool
    ensures { result ≡ description_fits counts.now loops (object_fits counts.now inside (object_meant object.now)) (description_meant description.now) room }
{
    let adjectives = description.adjectives.as_slice();
    let fits = those_fit(counts, inside, object, adjectives, description.kind, room);
    match &description.held {
        None => fits,
        Some(held) => {
            fits && object_fits(counts, inside, object, room.saturating_sub(1))
                && object_fits(
                    counts,
                    loops,
                    &held.holder,
                    room.saturating_sub(1).saturating_sub(1),
                )
        }
    }
}

/// Whether the test of a description fits inside so many loops, which asks about the object of one more.
pub(crate) fn test_fits(counts: &Counts, loops: u8, description: &Description) -> bool
    ensures fits { result ≡ test_fits counts.now loops (description_meant description.now) }
    ensures few { result ≡ true → loops + 1 ≤ 9 }
{
    if loops >= LOOPS {
        return false;
    }
    let turning = Referent::Turning(loops);
    description_fits(counts, loops, loops + 1, &turning, description, OPERANDS)
}
