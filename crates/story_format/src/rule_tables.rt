//! Tables 8 to 12: actions, grammar, rules, books and scenes.

use crate::field::{Field, read_fields, skip_fields, write_fields};
use crate::rule_entry::RuleEntry;
use crate::table::Table;
use std::alloc::{AllocError, Global};
use world_meaning::Listed;

/// An action, as table 8 has it.
#[derive(Drop)]
pub struct ActionEntry {
    /// How many nouns it has.
    pub nouns: u8,
    /// What the noun needs: 0 seen, 1 touched, 2 carried; 255 where it has none.
    pub noun: u8,
    /// What the second noun needs.
    pub second: u8,
    /// 1 it needs light, 2 it is out of world.
    pub marks: u8,
}

#[tactic(auto, unfolding(crate::specs::Layout::action_layout))]
impl Field for ActionEntry {
    ghost use Rattle.story_format.specs.Layout.{action_layout};

    ghost format = { action_layout.format };

    fn read(alloc: Global, bytes: &[u8]) -> Result<Option<(ActionEntry, &[u8])>, AllocError> {
        read_fields!(ActionEntry, alloc, bytes, nouns: u8, noun: u8, second: u8, marks: u8)
    }

    fn skip(bytes: &[u8]) -> Option<&[u8]> {
        skip_fields!(bytes, u8, u8, u8, u8)
    }

    fn write(&self, out: &mut Vec<u8>) -> Result<(), AllocError> {
        write_fields!(self, out, nouns, noun, second, marks)
    }

    ghost lawful = { action_layout.lawful };
}

/// A line of the grammar, as table 9 has it.
#[derive(Drop)]
pub struct LineEntry {
    /// The action that it asks for.
    pub action: u8,
    /// Its tokens: the numbers of strings, and 65,534 for a slot for a thing, 65,535 for one for a direction.
    pub tokens: Listed<u16>,
}

#[tactic(auto, unfolding(crate::specs::Layout::line_layout))]
impl Field for LineEntry {
    ghost use Rattle.story_format.specs.Layout.{line_layout};

    ghost format = { line_layout.format };

    fn read(alloc: Global, bytes: &[u8]) -> Result<Option<(LineEntry, &[u8])>, AllocError> {
        read_fields!(LineEntry, alloc, bytes, action: u8, tokens: Listed<u16>)
    }

    fn skip(bytes: &[u8]) -> Option<&[u8]> {
        skip_fields!(bytes, u8, Listed<u16>)
    }

    fn write(&self, out: &mut Vec<u8>) -> Result<(), AllocError> {
        write_fields!(self, out, action, tokens)
    }

    ghost lawful = { line_layout.lawful };
}

/// A book, as table 11 has it.
#[derive(Drop)]
pub struct Book {
    /// Its rules, in order.
    pub rules: Table<u16>,
}

#[tactic(auto, unfolding(crate::specs::Layout::book_layout))]
impl Field for Book {
    ghost use Rattle.story_format.specs.Layout.{book_layout};

    ghost format = { book_layout.format };

    fn read(alloc: Global, bytes: &[u8]) -> Result<Option<(Book, &[u8])>, AllocError> {
        read_fields!(Book, alloc, bytes, rules: Table<u16>)
    }

    fn skip(bytes: &[u8]) -> Option<&[u8]> {
        skip_fields!(bytes, Table<u16>)
    }

    fn write(&self, out: &mut Vec<u8>) -> Result<(), AllocError> {
        write_fields!(self, out, rules)
    }

    ghost lawful = { book_layout.lawful };
}

/// A scene, as table 12 has it.
#[derive(Clone, Copy)]
pub struct SceneEntry {
    /// 1 if it may happen again.
    pub recurring: u8,
    /// The code of the test by which it begins; 65,535 where there is none.
    pub begins: u16,
    /// The code of the test by which it ends.
    pub ends: u16,
}

#[tactic(auto, unfolding(crate::specs::Layout::scene_layout))]
impl Field for SceneEntry {
    ghost use Rattle.story_format.specs.Layout.{scene_layout};

    ghost format = { scene_layout.format };

    fn read(alloc: Global, bytes: &[u8]) -> Result<Option<(SceneEntry, &[u8])>, AllocError> {
        read_fields!(SceneEntry, alloc, bytes, recurring: u8, begins: u16, ends: u16)
    }

    fn skip(bytes: &[u8]) -> Option<&[u8]> {
        skip_fields!(bytes, u8, u16, u16)
    }

    fn write(&self, out: &mut Vec<u8>) -> Result<(), AllocError> {
        write_fields!(self, out, recurring, begins, ends)
    }

    ghost lawful = { scene_layout.lawful };
}

/// Tables 8 to 12.
#[derive(Drop)]
pub struct RuleTables {
    /// Table 8.
    pub actions: Table<ActionEntry>,
    /// Table 9.
    pub grammar: Table<LineEntry>,
    /// Table 10.
    pub rules: Table<RuleEntry>,
    /// Table 11.
    pub books: Table<Book>,
    /// Table 12.
    pub scenes: Table<SceneEntry>,
}

#[tactic(auto, unfolding(crate::specs::Layout::rules_layout))]
impl Field for RuleTables {
    ghost use Rattle.story_format.specs.Layout.{rules_layout};

    ghost format = { rules_layout.format };

    fn read(alloc: Global, bytes: &[u8]) -> Result<Option<(RuleTables, &[u8])>, AllocError> {
        read_fields!(RuleTables, alloc, bytes, actions: Table<ActionEntry>, grammar: Table<LineEntry>, rules: Table<RuleEntry>, books: Table<Book>, scenes: Table<SceneEntry>)
    }

    fn skip(bytes: &[u8]) -> Option<&[u8]> {
        skip_fields!(bytes, Table<ActionEntry>, Table<LineEntry>, Table<RuleEntry>, Table<Book>, Table<SceneEntry>)
    }

    fn write(&self, out: &mut Vec<u8>) -> Result<(), AllocError> {
        write_fields!(self, out, actions, grammar, rules, books, scenes)
    }

    ghost lawful = { rules_layout.lawful };
}
