//! Phrases that add to numbers (*Writing with Inform*, chapter 15): `increase the score by 2`, `decrease the weight of the
//! ball by the score`.
ghost use Rattle.std.specs.Prelude.{◌≡◌, ◌≤◌, length, IfOk};
ghost use Rattle.i7_conditions.specs.Joining.{found_number};
ghost use Rattle.i7_conditions.specs.Readings.{two};
ghost use Rattle.i7_conditions.specs.Scopes.{scope_of};
ghost use Rattle.i7_phrases.specs.CellForms.{found_cell};
ghost use Rattle.i7_phrases.specs.Cells.{read, set};
ghost use Rattle.i7_phrases.specs.ChangeForms.{added, adds_said, found_simple};
ghost use Rattle.play_meaning.specs.Meant.{by_operator, number_meant, term_meant};

use crate::cell::{Cell, cell_said, read, set};
use i7_conditions::{Found, Scope, number_said};
use play_meaning::tree::{Joined, Number, Operator, Simple, Term};
use std::alloc::{AllocError, Global};
use world_meaning::TextBytes;

/// A number joined to one in front of it.
fn joined(
    alloc: Global,
    first: Term,
    operator: Operator,
    number: Number,
) -> Result<Number, AllocError>
    ensures { IfOk result (λ n. number_meant n ≡ by_operator operator (term_meant first) (number_meant number)) }
{
    let mut rest = Vec::new(alloc);
    rest.push(Joined {
        operator,
        term: number.first,
    })?;
    for joined in number.rest {
        rest.push(joined)?;
    }
    Ok(Number { first, rest })
}

/// What holds a number set to that number joined to another: `first` and `cell` are the same.
fn added(
    alloc: Global,
    operator: Operator,
    first: Found<Cell>,
    cell: Found<Cell>,
    amount: Found<Number>,
) -> Result<Found<Simple>, AllocError>
    requires same { found_cell first ≡ found_cell cell }
    ensures { IfOk result (λ found. found_simple found ≡ two (added operator) (found_cell cell) (found_number amount)) }
{
    match (first, cell, amount) {
        (Found::Read(first), Found::Read(cell), Found::Read(amount)) => {
            let number = joined(alloc, read(first), operator, amount)?;
            Ok(Found::Read(set(cell, number)))
        }
        (Found::Unread, _, _) | (_, Found::Unread, _) | (_, _, Found::Unread) => Ok(Found::Unread),
        _ => Ok(Found::TooMany),
    }
}

/// `increase VALUE by AMOUNT`, `decrease VALUE by AMOUNT`
#[tactic(auto, unfolding(crate::specs::ChangeForms::adds_said))]
pub fn adds_said(
    alloc: Global,
    scope: &Scope<'_>,
    operator: Operator,
    value: &[TextBytes],
    amount: &[TextBytes],
) -> Result<Found<Simple>, AllocError>
    requires few { length (scope_of scope.now).repeats ≤ 255 }
    ensures { IfOk result (λ found. found_simple found ≡ adds_said operator (scope_of scope.now) value.now amount.now) }
{
    let first = cell_said(alloc, scope, value)?;
    let cell = cell_said(alloc, scope, value)?;
    let amount = number_said(alloc, scope, amount)?;
    added(alloc, operator, first, cell, amount)
}
