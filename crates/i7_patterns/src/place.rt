//! Which places are right, and what words may ask: places are rooms, and descriptions of rooms.
ghost use Rattle.std.specs.Prelude.{◌≡◌, map};
ghost use Rattle.play_meaning.specs.Meant.{adjective_meant};
ghost use Rattle.play_meaning.specs.Patterns.{aspect_meant};
ghost use Rattle.i7_patterns.specs.Places.{asks_value, is_long, is_place, is_right_place, is_room, is_value};
ghost use Rattle.std.specs.List.{list_any, slice_get};

use i7_conditions::MOST_ADJECTIVES;
use play_meaning::tree::{Adjective, Aspect, Quality};
use world_meaning::{KindNo, ObjNo, Object, is_under};

/// Whether this object is a room.
fn is_room(parents: &[Option<KindNo>], objects: &[Object], object: ObjNo) -> bool
    ensures { result ≡ is_room parents.now (slice_get objects.now object) }
{
    match objects.get(object.get() as usize) {
        None => false,
        Some(object) => is_under(parents, object.kind, KindNo::ROOM),
    }
}

/// Whether a place is a room or a description of rooms, where the kind above each kind is told, and the objects by number.
#[tactic(auto, unfolding(crate::specs::Places::is_place))]
pub fn is_place(parents: &[Option<KindNo>], objects: &[Object], place: &Aspect) -> bool
    ensures { result ≡ is_place parents.now objects.now (aspect_meant place.now) }
{
    match place {
        Aspect::Anything => true,
        Aspect::Exactly(object) => is_room(parents, objects, *object),
        Aspect::OfKind(kind, _) => is_under(parents, *kind, KindNo::ROOM),
    }
}

/// Whether it is a value of a kind of value.
fn is_value(adjective: &Adjective) -> bool
    ensures { result ≡ is_value (adjective_meant adjective.now) }
{
    matches!(adjective.quality, Quality::Valued(_, _))
}

/// Whether one of the adjectives is a value.
fn any_value(adjectives: &[Adjective]) -> bool
    ensures { result ≡ list_any is_value (map adjective_meant adjectives.now) }
{
    let mut rest = adjectives;
    while let [adjective, after @ ..] = rest {
        if is_value(adjective) {
            return true;
        }
        rest = after;
    }
    false
}

/// Whether it asks for a value, which a rule can't be about.
pub fn asks_value(aspect: &Aspect) -> bool
    ensures { result ≡ asks_value (aspect_meant aspect.now) }
{
    match aspect {
        Aspect::Anything | Aspect::Exactly(_) => false,
        Aspect::OfKind(_, adjectives) => any_value(adjectives.as_slice()),
    }
}

/// Whether a place is right, and no value is asked for.
pub fn is_right_place(parents: &[Option<KindNo>], objects: &[Object], place: &Aspect) -> bool
    ensures { result ≡ is_right_place parents.now objects.now (aspect_meant place.now) }
{
    is_place(parents, objects, place) && !asks_value(place)
}

/// Whether it has more adjectives than the language allows.
pub fn is_long(aspect: &Aspect) -> bool
    ensures { result ≡ is_long (aspect_meant aspect.now) }
{
    match aspect {
        Aspect::Anything | Aspect::Exactly(_) => false,
        Aspect::OfKind(_, adjectives) => adjectives.as_slice().len() > MOST_ADJECTIVES,
    }
}
