//! What instructions give that ask of a world.
ghost use Rattle.std.specs.Prelude.{◌≡◌, ◌==◌, ◌&&◌};
ghost use Rattle.std.specs.Ordering.{int_eq};
ghost use Rattle.play_meaning.specs.Machines.{holder_by, is_asked, truth_number};
ghost use Rattle.play_meaning.specs.Seeing.{encloses};
ghost use Rattle.play_meaning.specs.Settings.{direction_kind, room_kind};
ghost use Rattle.play_meaning.specs.Truth.{of_both, of_some};
ghost use Rattle.play_meaning.specs.Trees.{First, Quality, Second};
ghost use Rattle.play_meaning.specs.Values.{beyond, has_value, is_held, is_so, number_at};
ghost use Rattle.world_meaning.specs.Relations.{relation_number};
ghost use Rattle.play_meaning.specs.Worlds.{location_of};
ghost use Rattle.story_code.specs.Asking.{beyond_in, calculated, holds_of, known, object_known, of_numbers, of_object, of_objects};

use crate::number::{is_true, truth_number};
use crate::turning::Turning;
use play_meaning::{ActionNow, Asked, Ground, Instruction};
use world_meaning::{KindNo, ObjNo, Rel, relation_number};

/// A number or a truth, of no operand.
#[inline(always)]
pub fn known<G: Ground>(ground: &G, instruction: Instruction) -> i32
    ensures { result ≡ known (G.fixed ground.now).setting (G.world ground.now) instruction }
{
    match instruction {
        Instruction::Num(number) => number,
        Instruction::Var(variable) => ground.variable(variable),
        Instruction::Turns => ground.turns() as i32,
        Instruction::Dark => truth_number(!ground.lit_here()),
        Instruction::Happens(scene) => truth_number(ground.scene(scene).happens),
        _ => 0,
    }
}

/// What the player is in.
fn location<G: Ground>(ground: &G) -> Option<ObjNo>
    ensures { result ≡ location_of (G.world ground.now) }
{
    Some(ground.holder(ObjNo::new(0))?.holder)
}

/// An object, of no operand.
#[inline(always)]
pub fn object_known<G: Ground>(
    ground: &G,
    now: &ActionNow,
    loops: &Turning,
    instruction: Instruction,
) -> Option<ObjNo>
    ensures { result ≡ object_known (G.world ground.now) now.now loops.now instruction }
{
    match instruction {
        Instruction::Noun => now.noun,
        Instruction::Second => now.second,
        Instruction::Location => location(ground),
        Instruction::Loop(number) => loops.at(number),
        _ => None,
    }
}

/// An object's number in a number property; 0 for nothing, and where its kind lacks that.
pub fn number_at<G: Ground>(ground: &G, property: u8, object: Option<ObjNo>) -> i32
    ensures { result ≡ number_at (G.fixed ground.now).setting (G.world ground.now) property object }
{
    match object {
        Some(object) if ground.has_number(object, property) => ground.number(object, property),
        _ => 0,
    }
}

/// Whether something has a property in its first sense: nothing hasn't, nor an object whose kind lacks it.
#[tactic(auto, unfolding(play_meaning::specs::Values::is_so))]
fn is_first<G: Ground>(ground: &G, property: u8, object: Option<ObjNo>) -> bool
    ensures { result ≡ of_some object (is_so (G.fixed ground.now).setting (G.world ground.now) (Quality property First)) }
{
    match object {
        Some(object) => ground.has_flag(object, property) && ground.flag(object, property),
        None => false,
    }
}

/// Whether something has a property in its second sense: nothing hasn't, nor an object whose kind lacks it.
#[tactic(auto, unfolding(play_meaning::specs::Values::is_so))]
fn is_second<G: Ground>(ground: &G, property: u8, object: Option<ObjNo>) -> bool
    ensures { result ≡ of_some object (is_so (G.fixed ground.now).setting (G.world ground.now) (Quality property Second)) }
{
    match object {
        Some(object) => ground.has_flag(object, property) && !ground.flag(object, property),
        None => false,
    }
}

/// Whether a property is asked so of something rightly.
fn is_asked<G: Ground>(ground: &G, property: u8, asked: Asked, object: Option<ObjNo>) -> bool
    ensures { result ≡ is_asked (G.fixed ground.now).setting (G.world ground.now) property asked object }
{
    match asked {
        Asked::IsFirst => is_first(ground, property, object),
        Asked::IsSecond => is_second(ground, property, object),
        Asked::IsNotFirst => !is_first(ground, property, object),
        Asked::IsNotSecond => !is_second(ground, property, object),
    }
}

/// Whether an object has this value of a kind of value.
fn has_value<G: Ground>(ground: &G, kind: u8, value: u8, object: ObjNo) -> bool
    ensures { result ≡ has_value (G.fixed ground.now).setting (G.world ground.now) kind value object }
{
    match ground.value(object, kind) {
        Some(had) => had == value,
        None => false,
    }
}

/// Whether an object is what an instruction asks.
fn holds_of<G: Ground>(ground: &G, instruction: Instruction, object: ObjNo) -> bool
    ensures { result ≡ holds_of (G.fixed ground.now).setting (G.world ground.now) instruction object }
{
    match instruction {
        Instruction::Kind(kind) => ground.is_of(object, KindNo::new(kind)),
        Instruction::Visible => ground.visible(object),
        Instruction::Touchable => ground.touchable(object),
        Instruction::HasDescription => ground.has_description(object),
        Instruction::Valued(kind, value) => has_value(ground, kind, value, object),
        _ => false,
    }
}

/// Whether something is what an instruction asks; nothing isn't, unless that is to deny a property.
pub fn of_object<G: Ground>(ground: &G, instruction: Instruction, object: Option<ObjNo>) -> i32
    ensures { result ≡ of_object (G.fixed ground.now).setting (G.world ground.now) instruction object }
{
    if let Instruction::Flag(property, asked) = instruction {
        return truth_number(is_asked(ground, property, asked, object));
    }
    match object {
        Some(object) => truth_number(holds_of(ground, instruction, object)),
        None => truth_number(false),
    }
}

/// What holds an object so; nothing where nothing does.
pub fn holder_by<G: Ground>(ground: &G, relation: Rel, object: Option<ObjNo>) -> Option<ObjNo>
    ensures { result ≡ holder_by (G.fixed ground.now).setting (G.world ground.now) relation object }
{
    let place = ground.holder(object?)?;
    if is_so_held(place.relation, relation) && place.holder.get() < ground.object_count() {
        Some(place.holder)
    } else {
        None
    }
}

/// Whether two relations are the same.
fn is_so_held(relation: Rel, other: Rel) -> bool
    ensures { result ≡ (relation_number relation == relation_number other) }
{
    relation_number(relation) == relation_number(other)
}

/// Whether an object is held so by something; nothing holds nothing.
pub fn is_held<G: Ground>(ground: &G, relation: Rel, holder: Option<ObjNo>, object: ObjNo) -> bool
    ensures { result ≡ is_held (G.world ground.now) relation holder object }
{
    let Some(holder) = holder else {
        return false;
    };
    match ground.holder(object) {
        Some(place) => is_so_held(place.relation, relation) && place.holder.get() == holder.get(),
        None => false,
    }
}

/// A truth, of two numbers or truths.
#[inline(always)]
pub fn of_numbers(instruction: Instruction, a: i32, b: i32) -> i32
    ensures { result ≡ of_numbers instruction a b }
{
    match instruction {
        Instruction::Eq => truth_number(is_same(a, b)),
        Instruction::Less => truth_number(a < b),
        Instruction::AtMost => truth_number(a <= b),
        Instruction::And => truth_number(is_true(a) && is_true(b)),
        Instruction::Or => truth_number(is_true(a) || is_true(b)),
        _ => 0,
    }
}

/// Whether two numbers are the same.
fn is_same(a: i32, b: i32) -> bool
    ensures { result ≡ int_eq a b }
{
    a == b
}

/// Whether something holds something, at any depth.
pub fn encloses<G: Ground>(ground: &G, holder: Option<ObjNo>, object: Option<ObjNo>) -> bool
    ensures { result ≡ of_both holder object (encloses (G.world ground.now)) }
{
    match holder {
        None => false,
        Some(holder) => match object {
            None => false,
            Some(object) => ground.encloses(holder, object),
        },
    }
}

/// Whether something is held so by something.
pub fn is_some_held<G: Ground>(
    ground: &G,
    relation: Rel,
    object: Option<ObjNo>,
    holder: Option<ObjNo>,
) -> bool
    ensures { result ≡ of_some object (is_held (G.world ground.now) relation holder) }
{
    match object {
        None => false,
        Some(object) => is_held(ground, relation, holder, object),
    }
}

/// A truth, of two objects.
pub fn of_objects<G: Ground>(
    ground: &G,
    instruction: Instruction,
    a: Option<ObjNo>,
    b: Option<ObjNo>,
) -> i32
    ensures { result ≡ of_objects (G.world ground.now) instruction a b }
{
    match instruction {
        Instruction::Held(relation) => truth_number(is_some_held(ground, relation, a, b)),
        Instruction::Encloses => truth_number(encloses(ground, a, b)),
        _ => 0,
    }
}

/// Whether a direction and a room are what they are to be.
fn is_way<G: Ground>(ground: &G, direction: ObjNo, room: ObjNo) -> bool
    ensures { result ≡ ((G.fixed ground.now).setting.is_of direction direction_kind && (G.fixed ground.now).setting.is_of room room_kind) }
{
    ground.is_of(direction, KindNo::DIRECTION) && ground.is_of(room, KindNo::ROOM)
}

/// The room that lies in a direction from a room.
pub fn room_beyond<G: Ground>(
    ground: &G,
    direction: Option<ObjNo>,
    room: Option<ObjNo>,
) -> Option<ObjNo>
    ensures { result ≡ beyond (G.fixed ground.now).setting (G.fixed ground.now).setting.room_beyond direction room }
{
    let direction = direction?;
    let room = room?;
    if is_way(ground, direction, room) {
        ground.room_beyond(room, direction)
    } else {
        None
    }
}

/// The door on the way in a direction from a room.
pub fn door_beyond<G: Ground>(
    ground: &G,
    direction: Option<ObjNo>,
    room: Option<ObjNo>,
) -> Option<ObjNo>
    ensures { result ≡ beyond (G.fixed ground.now).setting (G.fixed ground.now).setting.door_beyond direction room }
{
    let direction = direction?;
    let room = room?;
    if is_way(ground, direction, room) {
        ground.door_beyond(room, direction)
    } else {
        None
    }
}

/// A place, of a direction and a room.
pub fn beyond_in<G: Ground>(
    ground: &G,
    instruction: Instruction,
    direction: Option<ObjNo>,
    room: Option<ObjNo>,
) -> Option<ObjNo>
    ensures { result ≡ beyond_in (G.fixed ground.now).setting instruction direction room }
{
    match instruction {
        Instruction::Room => room_beyond(ground, direction, room),
        Instruction::Door => door_beyond(ground, direction, room),
        _ => None,
    }
}

/// A sum, a difference, a product.
#[inline(always)]
pub fn calculated(instruction: Instruction, a: i32, b: i32) -> i64
    ensures { result ≡ calculated instruction a b }
{
    let (a, b) = (i64::from(a), i64::from(b));
    match instruction {
        Instruction::Add => a + b,
        Instruction::Sub => a - b,
        Instruction::Mul => a * b,
        _ => 0,
    }
}
