//! What holds a number that phrases may set: `the score`, `the weight of the ball`.
ghost use Rattle.std.specs.Prelude.{◌≡◌, ◌≤◌, length, IfOk};
ghost use Rattle.i7_conditions.specs.Keys.{split_of};
ghost use Rattle.i7_conditions.specs.Objects.{found_meant};
ghost use Rattle.i7_conditions.specs.Readings.{one};
ghost use Rattle.i7_conditions.specs.Scopes.{scope_of};
ghost use Rattle.i7_phrases.specs.CellForms.{cell_said, found_cell, property_around, property_said, variable_said};
ghost use Rattle.i7_phrases.specs.Cells.{PropertyOf as IsPropertyOf, cell_meant, read, set};
ghost use Rattle.play_meaning.specs.Meant.{number_meant, simple_meant, term_meant};

use i7_conditions::{Found, Scope, object_said, property_named, split_of, variable_named};
use play_meaning::tree::{Number, Referent, Simple, Term};
use std::alloc::{AllocError, Global};
use world_meaning::TextBytes;

/// What holds a number, properties and variables going by their numbers.
#[derive(Drop)]
pub enum Cell {
    Variable(u8),
    /// `the PROPERTY of OBJECT`
    PropertyOf(u8, Referent),
}

/// The number that it holds.
pub fn read(cell: Cell) -> Term
    ensures { term_meant result ≡ read (cell_meant cell) }
{
    match cell {
        Cell::Variable(variable) => Term::Variable(variable),
        Cell::PropertyOf(property, object) => Term::PropertyOf(property, object),
    }
}

/// The phrase that sets it.
pub fn set(cell: Cell, number: Number) -> Simple
    ensures { simple_meant result ≡ set (cell_meant cell) (number_meant number) }
{
    match cell {
        Cell::Variable(variable) => Simple::NowVariable(variable, number),
        Cell::PropertyOf(property, object) => Simple::NowNumber(property, object, number),
    }
}

/// This property of what words mean.
fn property_of(property: u8, object: Found<Referent>) -> Found<Cell>
    ensures { found_cell result ≡ one (IsPropertyOf property) (found_meant object) }
{
    match object {
        Found::Read(object) => Found::Read(Cell::PropertyOf(property, object)),
        Found::TooMany => Found::TooMany,
        Found::Unread => Found::Unread,
    }
}

/// `the PROPERTY of OBJECT`, by the words around its `of`.
fn property_by(
    alloc: Global,
    scope: &Scope<'_>,
    name: &[TextBytes],
    object: &[TextBytes],
) -> Result<Found<Cell>, AllocError>
    requires few { length (scope_of scope.now).repeats ≤ 255 }
    ensures { IfOk result (λ found. found_cell found ≡ property_around (scope_of scope.now) (name.now, object.now)) }
{
    match property_named(alloc, scope, name)? {
        None => Ok(Found::Unread),
        Some(property) => Ok(property_of(property, object_said(alloc, scope, object)?)),
    }
}

/// `the PROPERTY of OBJECT`
fn property_said(
    alloc: Global,
    scope: &Scope<'_>,
    words: &[TextBytes],
) -> Result<Found<Cell>, AllocError>
    requires few { length (scope_of scope.now).repeats ≤ 255 }
    ensures { IfOk result (λ found. found_cell found ≡ property_said (scope_of scope.now) (split_of words.now)) }
{
    match split_of(words) {
        None => Ok(Found::Unread),
        Some((name, object)) => property_by(alloc, scope, name, object),
    }
}

/// A variable, if words name one.
fn variable_said(variable: Option<u8>) -> Found<Cell>
    ensures { found_cell result ≡ variable_said variable }
{
    match variable {
        None => Found::Unread,
        Some(variable) => Found::Read(Cell::Variable(variable)),
    }
}

/// What holds a number, by its words.
#[tactic(auto, unfolding(crate::specs::CellForms::cell_said))]
pub fn cell_said(
    alloc: Global,
    scope: &Scope<'_>,
    words: &[TextBytes],
) -> Result<Found<Cell>, AllocError>
    requires few { length (scope_of scope.now).repeats ≤ 255 }
    ensures { IfOk result (λ found. found_cell found ≡ cell_said (scope_of scope.now) words.now) }
{
    match property_said(alloc, scope, words)? {
        Found::Unread => {
            let variable = variable_named(alloc, scope, words)?;
            Ok(variable_said(variable))
        }
        found => Ok(found),
    }
}
