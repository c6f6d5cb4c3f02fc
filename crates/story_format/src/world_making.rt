//! Tables 2 to 5 of a tale.
ghost use Rattle.std.specs.Prelude.{◌≡◌, IfOk, map};
ghost use Rattle.std.specs.Int.{w32, cast_unsigned};
ghost use Rattle.story_format.specs.Making.{numbers_of, variable_of, world_of};

use crate::table::Table;
use crate::world_tables::{Variable, WorldTables};
use std::alloc::{AllocError, Global};
use world_meaning::{Declared, Granted, Listed};

/// A copy of a property's kinds.
pub fn granted_to(alloc: Global, granted: &Granted) -> Result<Granted, AllocError>
    ensures { IfOk result (λ copy. copy ≡ granted.now) }
{
    Ok(Granted {
        kinds: Listed::new(Vec::from_slice(alloc, granted.kinds.as_slice())?),
    })
}

/// The kinds that have each of these properties.
fn all_granted(alloc: Global, granted: &[Granted]) -> Result<Table<Granted>, AllocError>
    ensures { IfOk result (λ table. table ≡ granted.now) }
{
    let mut table = Vec::new(alloc);
    let mut rest = granted;
    while let [one, after @ ..] = rest {
        table.push(granted_to(alloc, one)?)?;
        rest = after;
    }
    Ok(Table::new(table))
}

/// The two's complement of a number.
fn twos_complement(number: i32) -> u32
    ensures { result ≡ cast_unsigned w32 number }
{
    number.cast_unsigned()
}

fn variable_of(number: i32) -> Variable
    ensures { result ≡ variable_of number }
{
    Variable {
        start: twos_complement(number),
    }
}

fn variables_of(alloc: Global, numbers: &[i32]) -> Result<Vec<Variable>, AllocError>
    ensures { IfOk result (λ made. made.items ≡ map variable_of numbers.now) }
{
    numbers
        .iter()
        .map(|number| variable_of(*number))
        .collect(alloc)
}

/// Numbers as their two's complements.
pub fn numbers_of(alloc: Global, numbers: &[i32]) -> Result<Vec<u32>, AllocError>
    ensures { IfOk result (λ made. made.items ≡ numbers_of numbers.now) }
{
    numbers
        .iter()
        .map(|number| twos_complement(*number))
        .collect(alloc)
}

/// Tables 2 to 5 of what is declared.
#[tactic(auto, unfolding(crate::specs::Making::world_of))]
pub fn world_of(alloc: Global, declared: &Declared) -> Result<WorldTables, AllocError>
    ensures { IfOk result (λ world. world ≡ world_of declared.now) }
{
    Ok(WorldTables {
        kinds: Table::new(Vec::from_slice(alloc, declared.kinds.as_slice())?),
        flags: all_granted(alloc, declared.flags.as_slice())?,
        numbers: all_granted(alloc, declared.numbers.as_slice())?,
        variables: Table::new(variables_of(alloc, declared.variables.as_slice())?),
    })
}
