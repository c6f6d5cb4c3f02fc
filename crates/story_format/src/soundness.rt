//! Whether codes are named in turn, and everything is named: each test is named after what it asks.
ghost use Rattle.std.specs.Prelude.{◌≡◌, ◌++◌, IfOk, length, map};
ghost use Rattle.code_table.specs.Strings.{counted_on, strings_of};
ghost use Rattle.story_code.specs.Runs.{code_told};
ghost use Rattle.story_format.specs.Checks.{strings_in_tables};
ghost use Rattle.story_format.specs.Soundness.{all_strings_told, are_in_turn, is_count};
ghost use Rattle.story_format.specs.ValueChecks.{strings_in_values};

use crate::checks::strings_in_tables;
use crate::tables::Tables;
use crate::value_checks::strings_in_values;
use code_table::strings_counted;
use std::alloc::{AllocError, Global};
use story_code::Verified;

/// Whether the numbers are 0, 1 and so on.
#[tactic(auto, unfolding(crate::specs::Soundness::are_in_turn))]
pub fn are_in_turn(numbers: &[u16]) -> bool
    ensures { result ≡ are_in_turn 0 numbers.now }
{
    let mut next = 0usize;
    let mut rest = numbers;
    while let [number, after @ ..] = rest {
        if *number as usize != next {
            return false;
        }
        next += 1;
        rest = after;
    }
    true
}

/// How many strings are named, so many before the numbers, if each of these is among those so far or is the next.
fn counted(first: usize, numbers: &[u16]) -> Option<usize>
    ensures { result ≡ counted_on first numbers.now }
{
    let mut next = first;
    let mut rest = numbers;
    while let [number, after @ ..] = rest {
        let number = *number as usize;
        if number > next {
            return None;
        }
        next = next.max(number + 1);
        rest = after;
    }
    Some(next)
}

/// How many strings the objects and the lines, and then the codes, name, if each is among those so far or is the next.
fn counted_in_codes(
    alloc: Global,
    tables: &Tables,
    codes: &[Verified],
) -> Result<Option<usize>, AllocError>
    ensures { IfOk result (λ count. count ≡ counted_on 0 (strings_in_tables tables.now ++ strings_of (map code_told codes.now))) }
{
    let numbers = strings_in_tables(alloc, tables)?;
    let Some(next) = counted(0, numbers.as_slice()) else {
        return Ok(None);
    };
    Ok(strings_counted(next, codes))
}

/// Whether the objects and the lines, then the codes, and then the kinds of value, name each string, in order.
pub fn are_all_named(alloc: Global, tables: &Tables, codes: &[Verified]) -> Result<bool, AllocError>
    ensures { IfOk result (λ named. named ≡ is_count (length tables.now.strings) (counted_on 0 (all_strings_told tables.now codes.now))) }
{
    let Some(next) = counted_in_codes(alloc, tables, codes)? else {
        return Ok(false);
    };
    let numbers = strings_in_values(alloc, tables.values.kinds.as_slice())?;
    match counted(next, numbers.as_slice()) {
        Some(count) => Ok(count == tables.strings.as_slice().len()),
        None => Ok(false),
    }
}
