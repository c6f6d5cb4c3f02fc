//! What a story file says of places: numbers that may be none, and a room's ways.
ghost use Rattle.std.specs.Prelude.{◌≡◌};
ghost use Rattle.story_format.specs.Formats.{optional_of, optional_number};
ghost use Rattle.story_format.specs.Placed.{is_place, place_of, relation_of};

use crate::field::{Field, skip_fields};
use crate::table::{read_many, skip_many, write_all};
use crate::tables::Entry;
use std::alloc::{AllocError, Global};
use world_meaning::{Exits, ObjNo, Place, Rel, Way};

/// The number that stands for none.
pub const NONE: u16 = 65535;

/// The object of a number, or none.
pub fn object_of(number: u16) -> Option<ObjNo>
    ensures { result ≡ optional_of 65535 number }
{
    if number == NONE {
        None
    } else {
        Some(ObjNo::new(number))
    }
}

/// The number of an object, or of none.
pub fn number_of(object: Option<ObjNo>) -> u16
    ensures { result ≡ optional_number 65535 object }
{
    match object {
        None => NONE,
        Some(object) => object.get(),
    }
}

fn relation_of(number: u8) -> Option<Rel>
    ensures { result ≡ relation_of number }
{
    if number == 0 {
        Some(Rel::In)
    } else if number == 1 {
        Some(Rel::On)
    } else if number == 2 {
        Some(Rel::Carried)
    } else if number == 3 {
        Some(Rel::Worn)
    } else if number == 4 {
        Some(Rel::Part)
    } else {
        None
    }
}

/// Where an object is.
pub fn place_of(entry: &Entry) -> Option<Place>
    ensures { result ≡ place_of entry.now }
{
    match relation_of(entry.relation) {
        None => None,
        Some(relation) => Some(Place {
            relation,
            holder: ObjNo::new(entry.holder),
        }),
    }
}

/// Whether an entry has a relation, or neither a relation nor a holder.
pub fn is_place(entry: &Entry) -> bool
    ensures { result ≡ is_place entry.now }
{
    relation_of(entry.relation).is_some() || (entry.relation == 255 && entry.holder == NONE)
}

#[tactic(auto, unfolding(crate::specs::Layout::way_layout))]
impl Field for Way {
    ghost use Rattle.story_format.specs.Layout.{way_layout};

    ghost format = { way_layout.format };

    fn read(alloc: Global, bytes: &[u8]) -> Result<Option<(Way, &[u8])>, AllocError> {
        let Some((room, rest)) = u16::read(alloc, bytes)? else {
            return Ok(None);
        };
        let Some((door, rest)) = u16::read(alloc, rest)? else {
            return Ok(None);
        };
        let way = Way {
            room: object_of(room),
            door: object_of(door),
        };
        Ok(Some((way, rest)))
    }

    fn skip(bytes: &[u8]) -> Option<&[u8]> {
        skip_fields!(bytes, u16, u16)
    }

    fn write(&self, out: &mut Vec<u8>) -> Result<(), AllocError> {
        number_of(self.room).write(out)?;
        number_of(self.door).write(out)
    }

    ghost lawful = { way_layout.lawful };
}

#[tactic(auto, unfolding(crate::specs::Layout::exits_layout))]
impl Field for Exits {
    ghost use Rattle.story_format.specs.Layout.{exits_layout};

    ghost format = { exits_layout.format };

    fn read(alloc: Global, bytes: &[u8]) -> Result<Option<(Exits, &[u8])>, AllocError> {
        let Some((all, rest)) = read_many(alloc, 12, bytes)? else {
            return Ok(None);
        };
        let mut ways = [Way::NONE; 12];
        ways.copy_from_slice(all.as_slice());
        Ok(Some((Exits { ways }, rest)))
    }

    fn skip(bytes: &[u8]) -> Option<&[u8]> {
        skip_many::<Way>(12, bytes)
    }

    fn write(&self, out: &mut Vec<u8>) -> Result<(), AllocError> {
        write_all(&self.ways, out)
    }

    ghost lawful = { exits_layout.lawful };
}
