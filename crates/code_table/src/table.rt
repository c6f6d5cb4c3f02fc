//! The table of a story's codes.
ghost use Rattle.std.specs.Prelude.{◌<◌, IfOk, MatchOption, length};
ghost use Rattle.story_code.specs.Soundness.{Judged};
ghost use Rattle.code_table.specs.Growing.{Grows, IsCodeOf};
ghost use Rattle.code_table.specs.Tables.{AreNoTable, IsTableOf};

use crate::naming::add_tests;
use play_meaning::{Counts, Use};
use std::alloc::{AllocError, Global};
use story_code::{Sizes, Verified};
use world_meaning::TextBytes;

/// The code of a number, if it is sound for its use.
fn code_of(
    alloc: Global,
    counts: &Counts,
    uses: &[Use],
    number: u16,
    bytes: &[u8],
) -> Result<Option<Verified>, AllocError>
    ensures { IfOk result (λ found. MatchOption found ((j : Judged) → IsCodeOf counts.now uses.now number bytes.now j → ⊥) (λ j. IsCodeOf counts.now uses.now number bytes.now j)) }
{
    let Some(&role) = uses.get(usize::from(number)) else {
        return Ok(None);
    };
    let counts = Counts {
        own: number,
        ..*counts
    };
    let bytes = Vec::from_slice(alloc, bytes)?;
    Ok(Verified::new(bytes, Sizes { counts, role }))
}

/// Adds a code behind those of a table, and the uses of the tests that it names, if it is sound for its use and each of its
/// tests is the next.
fn add_code(
    alloc: Global,
    counts: &Counts,
    uses: &mut Vec<Use>,
    table: &mut Vec<Verified>,
    bytes: &[u8],
) -> Result<bool, AllocError>
    requires { length table.old.items < 65536 }
    ensures { IfOk result (λ added. Grows counts.now uses.old.items table.old.items bytes.now added uses.new.items table.new.items) }
{
    let number = table.len() as u16;
    match code_of(alloc, counts, uses.as_slice(), number, bytes)? {
        None => Ok(false),
        Some(code) => {
            let added = add_tests(uses, code.bytes())?;
            table.push(code)?;
            Ok(added)
        }
    }
}

/// The codes of a story, each verified for the use for which it is named, if each is named exactly once: the first by other
/// tables, for the uses `heads`, and behind them the tests that codes name, in the order in which they are named, by the
/// numbers that they have, inside one loop more than are open there. `counts` says how many there are of what they name, and
/// how many codes. None if they aren't so. Takes time and memory in their bytes.
pub fn table_of(
    alloc: Global,
    counts: &Counts,
    heads: &[Use],
    codes: &[TextBytes],
) -> Result<Option<Vec<Verified>>, AllocError>
    ensures { IfOk result (λ found. MatchOption found (AreNoTable counts.now heads.now codes.now) (λ table. IsTableOf counts.now heads.now codes.now table.items)) }
{
    if codes.len() != usize::from(counts.codes) {
        return Ok(None);
    }
    let mut uses = Vec::from_slice(alloc, heads)?;
    let mut table = Vec::new(alloc);
    let mut rest = codes;
    while let [code, after @ ..] = rest {
        if !add_code(alloc, counts, &mut uses, &mut table, code.as_slice())? {
            return Ok(None);
        }
        rest = after;
    }
    if uses.len() != table.len() {
        return Ok(None);
    }
    Ok(Some(table))
}
