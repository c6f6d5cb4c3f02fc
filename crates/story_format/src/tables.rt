//! The tables of a story file, each entry with its fields in the order of their bytes.
ghost use Rattle.std.specs.Prelude.{◌≡◌};

use crate::field::{Field, parted, read_fields, skip_fields, write_fields};
use crate::rule_tables::RuleTables;
use crate::table::Table;
use crate::value_tables::{
    FIRST_VERSION, SECOND_VERSION, ValueTables, read_with_values, skip_values, write_values,
};
use crate::world_tables::WorldTables;
use std::alloc::{AllocError, Global};
use world_meaning::{Exits, Listed, TextBytes};

/// An object as table 6 has it.
#[derive(Drop)]
pub struct Entry {
    /// The kind's number.
    pub kind: u8,
    /// The name's string.
    pub name: u16,
    /// 0 none, 1 `a`, 2 `an`, 3 `some`.
    pub article: u8,
    /// The description's code; 65,535 none.
    pub description: u16,
    /// The strings that a command may name the object by.
    pub words: Listed<u16>,
    /// 0 in, 1 on, 2 carried, 3 worn, 4 part; 255 none.
    pub relation: u8,
    /// What holds the object; 65,535 nothing.
    pub holder: u16,
    /// The properties that are true of it.
    pub properties: Listed<u8>,
    /// Its number properties, as their two's complements.
    pub numbers: Listed<u32>,
}

#[tactic(auto, unfolding(crate::specs::Layout::entry_layout))]
impl Field for Entry {
    ghost use Rattle.story_format.specs.Layout.{entry_layout};

    ghost format = { entry_layout.format };

    fn read(alloc: Global, bytes: &[u8]) -> Result<Option<(Entry, &[u8])>, AllocError> {
        read_fields!(Entry, alloc, bytes, kind: u8, name: u16, article: u8, description: u16, words: Listed<u16>, relation: u8, holder: u16, properties: Listed<u8>, numbers: Listed<u32>)
    }

    fn skip(bytes: &[u8]) -> Option<&[u8]> {
        skip_fields!(bytes, u8, u16, u8, u16, Listed<u16>, u8, u16, Listed<u8>, Listed<u32>)
    }

    fn write(&self, out: &mut Vec<u8>) -> Result<(), AllocError> {
        write_fields!(
            self,
            out,
            kind,
            name,
            article,
            description,
            words,
            relation,
            holder,
            properties,
            numbers
        )
    }

    ghost lawful = { entry_layout.lawful };
}

/// The tables of a story.
#[derive(Drop)]
pub struct Tables {
    /// Table 1: names, words and texts.
    pub strings: Table<TextBytes>,
    /// Tables 2 to 5.
    pub world: WorldTables,
    /// Table 6.
    pub objects: Table<Entry>,
    /// Table 7: each room's ways, in the order of the rooms.
    pub ways: Table<Exits>,
    /// Tables 8 to 12.
    pub rules: RuleTables,
    /// Table 13: the codes of descriptions, of rules and of what scenes begin and end on, and the tests that codes name.
    pub codes: Table<TextBytes>,
    /// Tables 14 and 15; empty where there is no kind of value.
    pub values: ValueTables,
}

/// Tables 1 to 13.
type FirstTables = (
    Table<TextBytes>,
    (
        WorldTables,
        (Table<Entry>, (Table<Exits>, (RuleTables, Table<TextBytes>))),
    ),
);

impl Tables {
    ghost use Rattle.std.specs.Prelude.{◌++◌, IfOk, OnOk, IsTrue};
    ghost use Rattle.story_format.specs.Formats.{left, seen};
    ghost use Rattle.story_format.specs.Layout.{tables_layout, version_of};

    /// The tables of a version at the front of the bytes, and the bytes behind them, or `None` if they are cut.
    #[tactic(auto, unfolding(crate::specs::Layout::tables_layout, crate::specs::Layout::first_layout))]
    pub fn read(
        alloc: Global,
        version: u16,
        bytes: &[u8],
    ) -> Result<Option<(Tables, &[u8])>, AllocError>
        ensures { IfOk result (λ found. seen found ≡ (tables_layout version).format.get bytes.now) }
    {
        match read_with_values::<FirstTables>(alloc, version, bytes)? {
            Some(((parted!(strings, world, objects, ways, rules, codes), values), rest)) => {
                let tables = Tables {
                    strings,
                    world,
                    objects,
                    ways,
                    rules,
                    codes,
                    values,
                };
                Ok(Some((tables, rest)))
            }
            None => Ok(None),
        }
    }

    /// The bytes behind the tables of a version at the front, or `None` if they are cut. It takes no memory.
    #[tactic(auto, unfolding(crate::specs::Layout::tables_layout, crate::specs::Layout::first_layout))]
    pub fn skip(version: u16, bytes: &[u8]) -> Option<&[u8]>
        ensures { left result ≡ (tables_layout version).format.skip bytes.now }
    {
        let rest = FirstTables::skip(bytes)?;
        skip_values(version, rest)
    }

    /// Appends the tables' bytes, as a version has them.
    #[tactic(auto, unfolding(crate::specs::Layout::tables_layout, crate::specs::Layout::first_layout))]
    pub fn write(&self, version: u16, out: &mut Vec<u8>) -> Result<(), AllocError>
        requires { IsTrue ((tables_layout version).format.fits self.now) }
        ensures { OnOk result (out.new.items ≡ out.old.items ++ (tables_layout version).format.put self.now) }
    {
        self.strings.write(out)?;
        self.world.write(out)?;
        self.objects.write(out)?;
        self.ways.write(out)?;
        self.rules.write(out)?;
        self.codes.write(out)?;
        write_values(version, &self.values, out)
    }

    /// The version that a file of the tables has.
    pub fn version(&self) -> u16
        ensures { result ≡ version_of self.now }
    {
        if self.values.kinds.as_slice().is_empty() {
            FIRST_VERSION
        } else {
            SECOND_VERSION
        }
    }
}
