//! Writing a tale as a story.
ghost use Rattle.std.specs.Prelude.{◌≡◌, IfErr, IfOk, OnOk, ◌++◌};
ghost use Rattle.story_format.specs.Contents.{contents_meant};
ghost use Rattle.story_format.specs.Holding.{AreHeld, AreNotHeld, AreOf, IsHeld};
ghost use Rattle.story_format.specs.Layout.{tables_layout, version_of};
ghost use Rattle.story_format.specs.Making.{tables_of};
ghost use Rattle.story_format.specs.Spells.{IsStory, Spells, head};

use crate::coding::tables_of;
use crate::contents::Contents;
use crate::field::Field;
use crate::tables::Tables;
use code_table::TableFault;
use std::alloc::{AllocError, Global};
use world_meaning::Tale;

/// The bytes with which a story begins.
pub const MAGIC: [u8; 4] = *b"I7ST";

/// The bytes of these tables' story.
fn spelling(alloc: Global, tables: &Tables) -> Result<Vec<u8>, AllocError>
    requires { IsStory tables.now }
    ensures { IfOk result (λ bytes. bytes.items ≡ head (version_of tables.now) ++ (tables_layout (version_of tables.now)).format.put tables.now) }
{
    let mut bytes = Vec::new(alloc);
    bytes.extend_from_slice(&MAGIC)?;
    let version = tables.version();
    version.write(&mut bytes)?;
    tables.write(version, &mut bytes)?;
    Ok(bytes)
}

/// The bytes of the story of a tale of which this is said.
///
/// # Errors
///
/// `TooLong` only where a text, a rule or a scene says what doesn't fit, or has codes that bytes can't say (`numbered` tells by what
/// `code_table` finds these); `TooMany` only where the story would have more than 65,535 codes or 65,534 strings, or a string of
/// more than 65,535 bytes; and `Memory`.
pub fn write(alloc: Global, tale: &Tale, contents: &Contents) -> Result<Vec<u8>, TableFault>
    requires held { IsHeld tale.now }
    requires are_of { AreOf tale.now (contents_meant contents.now) }
    ensures spelled { IfOk result (λ bytes. Spells bytes.items (tables_of tale.now (contents_meant contents.now))) }
    ensures said { OnOk result (AreHeld tale.now (contents_meant contents.now)) }
    ensures none { IfErr result (AreNotHeld tale.now (contents_meant contents.now)) }
{
    match tables_of(alloc, tale, contents) {
        Ok(tables) => match spelling(alloc, &tables) {
            Ok(bytes) => Ok(bytes),
            Err(_) => Err(TableFault::Memory),
        },
        Err(fault) => Err(fault),
    }
}
