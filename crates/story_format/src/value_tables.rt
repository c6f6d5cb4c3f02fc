//! Tables 14 and 15: kinds of value, and the values of objects. A file of version 1 has neither.
ghost use Rattle.std.specs.Prelude.{◌≡◌, ◌++◌, IfOk, OnOk, IsTrue};
ghost use Rattle.story_format.specs.Formats.{left, pair, seen};
ghost use Rattle.story_format.specs.Layout.{no_values, values_layout};

use crate::field::{Field, read_fields, skip_fields, write_fields};
use crate::table::Table;
use std::alloc::{AllocError, Global};
use world_meaning::{Granted, Listed};

/// The version of a file without kinds of value.
pub const FIRST_VERSION: u16 = 1;

/// The version of a file with kinds of value.
pub const SECOND_VERSION: u16 = 2;

/// A kind of value, as table 14 has it.
#[derive(Drop)]
pub struct ValueEntry {
    /// The strings that its values are named by, in order.
    pub names: Listed<u16>,
    /// The kinds of which each object has one of its values.
    pub given: Granted,
}

#[tactic(auto, unfolding(crate::specs::Layout::value_layout))]
impl Field for ValueEntry {
    ghost use Rattle.story_format.specs.Layout.{value_layout};

    ghost format = { value_layout.format };

    fn read(alloc: Global, bytes: &[u8]) -> Result<Option<(ValueEntry, &[u8])>, AllocError> {
        read_fields!(ValueEntry, alloc, bytes, names: Listed<u16>, given: Granted)
    }

    fn skip(bytes: &[u8]) -> Option<&[u8]> {
        skip_fields!(bytes, Listed<u16>, Granted)
    }

    fn write(&self, out: &mut Vec<u8>) -> Result<(), AllocError> {
        write_fields!(self, out, names, given)
    }

    ghost lawful = { value_layout.lawful };
}

/// Tables 14 and 15.
#[derive(Drop)]
pub struct ValueTables {
    /// Table 14, the kinds of value.
    pub kinds: Table<ValueEntry>,
    /// Table 15: of each object a value of each kind of value that its kind has, by their numbers.
    pub objects: Table<Listed<u8>>,
}

#[tactic(auto, unfolding(crate::specs::Layout::two_tables_layout))]
impl Field for ValueTables {
    ghost use Rattle.story_format.specs.Layout.{two_tables_layout};

    ghost format = { two_tables_layout.format };

    fn read(alloc: Global, bytes: &[u8]) -> Result<Option<(ValueTables, &[u8])>, AllocError> {
        read_fields!(ValueTables, alloc, bytes, kinds: Table<ValueEntry>, objects: Table<Listed<u8>>)
    }

    fn skip(bytes: &[u8]) -> Option<&[u8]> {
        skip_fields!(bytes, Table<ValueEntry>, Table<Listed<u8>>)
    }

    fn write(&self, out: &mut Vec<u8>) -> Result<(), AllocError> {
        write_fields!(self, out, kinds, objects)
    }

    ghost lawful = { two_tables_layout.lawful };
}

/// Neither kinds of value nor values.
pub fn no_values(alloc: Global) -> ValueTables
    ensures { result ≡ no_values }
{
    ValueTables {
        kinds: Table::new(Vec::new(alloc)),
        objects: Table::new(Vec::new(alloc)),
    }
}

/// Tables 14 and 15 from the front of the bytes, as a version has them, and the bytes behind them.
#[tactic(auto, unfolding(crate::specs::Layout::no_tables_layout))]
fn read_values(
    alloc: Global,
    version: u16,
    bytes: &[u8],
) -> Result<Option<(ValueTables, &[u8])>, AllocError>
    ensures { IfOk result (λ found. seen found ≡ (values_layout version).format.get bytes.now) }
{
    if version == FIRST_VERSION {
        return Ok(Some((no_values(alloc), bytes)));
    }
    ValueTables::read(alloc, bytes)
}

/// What a version has in front of tables 14 and 15, and these, from the front of the bytes, and the bytes behind them.
pub fn read_with_values<A: Field>(
    alloc: Global,
    version: u16,
    bytes: &[u8],
) -> Result<Option<((A, ValueTables), &[u8])>, AllocError>
    ensures { IfOk result (λ found. seen found ≡ (pair A.format (values_layout version).format).get bytes.now) }
{
    let Some((first, rest)) = A::read(alloc, bytes)? else {
        return Ok(None);
    };
    let Some((values, rest)) = read_values(alloc, version, rest)? else {
        return Ok(None);
    };
    Ok(Some(((first, values), rest)))
}

/// The bytes behind tables 14 and 15, or `None` if they are cut.
#[tactic(auto, unfolding(crate::specs::Layout::no_tables_layout))]
pub fn skip_values(version: u16, bytes: &[u8]) -> Option<&[u8]>
    ensures { left result ≡ (values_layout version).format.skip bytes.now }
{
    if version == FIRST_VERSION {
        return Some(bytes);
    }
    ValueTables::skip(bytes)
}

/// Appends the bytes of tables 14 and 15, as a version has them.
#[tactic(auto, unfolding(crate::specs::Layout::no_tables_layout))]
pub fn write_values(version: u16, values: &ValueTables, out: &mut Vec<u8>) -> Result<(), AllocError>
    requires { IsTrue ((values_layout version).format.fits values.now) }
    ensures { OnOk result (out.new.items ≡ out.old.items ++ (values_layout version).format.put values.now) }
{
    if version == FIRST_VERSION {
        return Ok(());
    }
    values.write(out)
}
