//! Tables 2 to 5: kinds, properties and variables.
ghost use Rattle.std.specs.Prelude.{◌≡◌};
ghost use Rattle.story_format.specs.Formats.{optional_of, optional_number};

use crate::field::{Field, read_fields, skip_fields, write_fields};
use crate::table::Table;
use std::alloc::{AllocError, Global};
use world_meaning::{Granted, KindNo, Listed};

/// The kind of a number, or none.
fn kind_of(number: u8) -> Option<KindNo>
    ensures { result ≡ optional_of 255 number }
{
    if number == 255 {
        None
    } else {
        Some(KindNo::new(number))
    }
}

/// The number of a kind, or of none.
fn number_of(kind: Option<KindNo>) -> u8
    ensures { result ≡ optional_number 255 kind }
{
    match kind {
        None => 255,
        Some(kind) => kind.get(),
    }
}

/// The kind above a kind, as table 2 has it.
#[tactic(auto, unfolding(crate::specs::Layout::kind_layout))]
impl Field for Option<KindNo> {
    ghost use Rattle.story_format.specs.Layout.{kind_layout};

    ghost format = { kind_layout.format };

    fn read(alloc: Global, bytes: &[u8]) -> Result<Option<(Option<KindNo>, &[u8])>, AllocError> {
        let Some((number, rest)) = u8::read(alloc, bytes)? else {
            return Ok(None);
        };
        Ok(Some((kind_of(number), rest)))
    }

    fn skip(bytes: &[u8]) -> Option<&[u8]> {
        skip_fields!(bytes, u8)
    }

    fn write(&self, out: &mut Vec<u8>) -> Result<(), AllocError> {
        number_of(*self).write(out)
    }

    ghost lawful = { kind_layout.lawful };
}

/// A property, as tables 3 (either-or) and 4 (numbers) have it.
#[tactic(auto, unfolding(crate::specs::Layout::granted_layout))]
impl Field for Granted {
    ghost use Rattle.story_format.specs.Layout.{granted_layout};

    ghost format = { granted_layout.format };

    fn read(alloc: Global, bytes: &[u8]) -> Result<Option<(Granted, &[u8])>, AllocError> {
        read_fields!(Granted, alloc, bytes, kinds: Listed<u8>)
    }

    fn skip(bytes: &[u8]) -> Option<&[u8]> {
        skip_fields!(bytes, Listed<u8>)
    }

    fn write(&self, out: &mut Vec<u8>) -> Result<(), AllocError> {
        write_fields!(self, out, kinds)
    }

    ghost lawful = { granted_layout.lawful };
}

/// A variable, as table 5 has it.
#[derive(Drop)]
pub struct Variable {
    /// What it is as the story begins, as its two's complement.
    pub start: u32,
}

#[tactic(auto, unfolding(crate::specs::Layout::variable_layout))]
impl Field for Variable {
    ghost use Rattle.story_format.specs.Layout.{variable_layout};

    ghost format = { variable_layout.format };

    fn read(alloc: Global, bytes: &[u8]) -> Result<Option<(Variable, &[u8])>, AllocError> {
        read_fields!(Variable, alloc, bytes, start: u32)
    }

    fn skip(bytes: &[u8]) -> Option<&[u8]> {
        skip_fields!(bytes, u32)
    }

    fn write(&self, out: &mut Vec<u8>) -> Result<(), AllocError> {
        write_fields!(self, out, start)
    }

    ghost lawful = { variable_layout.lawful };
}

/// Tables 2 to 5.
#[derive(Drop)]
pub struct WorldTables {
    /// Table 2: the kind above each kind.
    pub kinds: Table<Option<KindNo>>,
    /// Table 3, the either-or properties.
    pub flags: Table<Granted>,
    /// Table 4, the number properties.
    pub numbers: Table<Granted>,
    /// Table 5.
    pub variables: Table<Variable>,
}

#[tactic(auto, unfolding(crate::specs::Layout::world_layout))]
impl Field for WorldTables {
    ghost use Rattle.story_format.specs.Layout.{world_layout};

    ghost format = { world_layout.format };

    fn read(alloc: Global, bytes: &[u8]) -> Result<Option<(WorldTables, &[u8])>, AllocError> {
        read_fields!(WorldTables, alloc, bytes, kinds: Table<Option<KindNo>>, flags: Table<Granted>, numbers: Table<Granted>, variables: Table<Variable>)
    }

    fn skip(bytes: &[u8]) -> Option<&[u8]> {
        skip_fields!(bytes, Table<Option<KindNo>>, Table<Granted>, Table<Granted>, Table<Variable>)
    }

    fn write(&self, out: &mut Vec<u8>) -> Result<(), AllocError> {
        write_fields!(self, out, kinds, flags, numbers, variables)
    }

    ghost lawful = { world_layout.lawful };
}
