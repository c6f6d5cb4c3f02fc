//! Columns of answers that are used again and again, so that a form that doesn't fit takes no memory of its own.
ghost use Rattle.std.specs.Prelude.{◌≡◌, ◌++◌, ◌∷◌, [], IfOk, MatchOption, OnOk};

use std::alloc::{AllocError, Global};
use std::marker::Model;

/// The columns told so far, and those that are free.
#[derive(Drop)]
pub struct ColumnStack {
    told: Vec<Vec<bool>>,
    free: Vec<Vec<bool>>,
}

impl Model for ColumnStack {
    ghost use Rattle.std.specs.Prelude.{Bool, List, map};

    ghost Value = { List (List Bool) };

    ghost view = { λ columns. map (λ column. column.items) columns.told.items };
}

impl ColumnStack {
    /// No columns yet, and so no memory.
    pub fn new(alloc: Global) -> ColumnStack
        ensures { result ≡ [] }
    {
        ColumnStack {
            told: Vec::new(alloc),
            free: Vec::new(alloc),
        }
    }

    /// A column without answers, in which there is room for so many: one that is free, if there is one.
    pub fn empty(&mut self, alloc: Global, room: usize) -> Result<Vec<bool>, AllocError>
        ensures told { self.new ≡ self.old }
        ensures empty { IfOk result (λ column. column.items ≡ []) }
    {
        let mut column = match self.free.pop() {
            None => Vec::new(alloc),
            Some(column) => column,
        };
        column.clear();
        column.reserve(room)?;
        Ok(column)
    }

    /// Adds a column to those told.
    pub fn add(&mut self, column: Vec<bool>) -> Result<(), AllocError>
        ensures { OnOk result (self.new ≡ self.old ++ column.items ∷ []) }
    {
        self.told.push(column)?;
        Ok(())
    }

    /// The last column told, which is told no more.
    pub fn take_last(&mut self) -> Option<Vec<bool>>
        ensures { MatchOption result (self.old ≡ []) (λ column. self.old ≡ self.new ++ column.items ∷ []) }
    {
        self.told.pop()
    }

    /// Keeps a column's memory for others.
    pub fn set_free(&mut self, column: Vec<bool>) -> Result<(), AllocError>
        ensures { self.new ≡ self.old }
    {
        self.free.push(column)?;
        Ok(())
    }

    /// Sets all columns free.
    pub fn clear(&mut self) -> Result<(), AllocError>
        ensures { OnOk result (self.new ≡ []) }
    {
        while let Some(column) = self.told.pop() {
            self.free.push(column)?;
        }
        Ok(())
    }
}
