//! What sentences claim that tell of ways and doors.
ghost use Rattle.std.specs.Prelude.{◌≡◌, ◌++◌, ◌∷◌, [], OnOk};
ghost use Rattle.i7_claims.specs.Claims.{claimed, door_claims, placed_door, room_claims, way_claims};
ghost use Rattle.i7_claims.specs.Statements.{key_of};
ghost use Rattle.i7_claims.specs.declared.claim.Fact.TheVariants.{Between, RoomUnlessDoor};

use crate::claim::{Claim, Fact, Standing};
use crate::claiming::{add_naming, key_text};
use crate::demanding::add_demand;
use i7_sentences::Name;
use std::alloc::{AllocError, Global};

/// Adds that an object is a room, unless it is a door.
fn add_room_unless_door(
    alloc: Global,
    claims: &mut Vec<Claim>,
    name: &Name,
    line: u32,
) -> Result<(), AllocError>
    ensures { OnOk result (claims.new.items ≡ claims.old.items ++ claimed (RoomUnlessDoor (key_of name.now.text)) line ∷ []) }
{
    let name = key_text(alloc, name)?;
    claims.push(Claim {
        fact: Fact::RoomUnlessDoor(name),
        line,
    })?;
    Ok(())
}

/// Adds that a door's rooms are told.
fn add_between(
    alloc: Global,
    claims: &mut Vec<Claim>,
    door: &Name,
    line: u32,
) -> Result<(), AllocError>
    ensures { OnOk result (claims.new.items ≡ claims.old.items ++ claimed (Between (key_of door.now.text)) line ∷ []) }
{
    let door = key_text(alloc, door)?;
    claims.push(Claim {
        fact: Fact::Between(door),
        line,
    })?;
    Ok(())
}

/// Adds that an object is a room.
fn add_room(
    alloc: Global,
    claims: &mut Vec<Claim>,
    room: &Name,
    line: u32,
) -> Result<(), AllocError>
    ensures { OnOk result (claims.new.items ≡ claims.old.items ++ room_claims room.now line) }
{
    add_naming(alloc, claims, room, Standing::Object, line)?;
    add_demand(alloc, claims, b"room", room, line)
}

/// Adds what a way between rooms claims.
pub fn add_way(
    alloc: Global,
    claims: &mut Vec<Claim>,
    subject: &Name,
    room: &Name,
    line: u32,
) -> Result<(), AllocError>
    ensures { OnOk result (claims.new.items ≡ claims.old.items ++ way_claims subject.now room.now line) }
{
    add_naming(alloc, claims, subject, Standing::Object, line)?;
    add_room_unless_door(alloc, claims, subject, line)?;
    add_room(alloc, claims, room, line)
}

/// Adds that an object is a door, whose rooms are told.
fn add_placed_door(
    alloc: Global,
    claims: &mut Vec<Claim>,
    door: &Name,
    line: u32,
) -> Result<(), AllocError>
    ensures { OnOk result (claims.new.items ≡ claims.old.items ++ placed_door door.now line) }
{
    add_naming(alloc, claims, door, Standing::Object, line)?;
    add_demand(alloc, claims, b"door", door, line)?;
    add_between(alloc, claims, door, line)
}

/// Adds what a door between two rooms claims.
pub fn add_door(
    alloc: Global,
    claims: &mut Vec<Claim>,
    door: &Name,
    first: &Name,
    second: &Name,
    line: u32,
) -> Result<(), AllocError>
    ensures { OnOk result (claims.new.items ≡ claims.old.items ++ door_claims door.now first.now second.now line) }
{
    add_placed_door(alloc, claims, door, line)?;
    add_room(alloc, claims, first, line)?;
    add_room(alloc, claims, second, line)
}
