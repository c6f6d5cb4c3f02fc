//! What sentences claim of number properties and variables.
ghost use Rattle.std.specs.Prelude.{◌≡◌, ◌++◌, ◌∷◌, [], OnOk, option_copied};
ghost use Rattle.i7_claims.specs.Claims.{number_claim, number_claims, numbers_said, start_claim, usual_number};
ghost use Rattle.i7_claims.specs.NameScans.{standing_at};
ghost use Rattle.i7_claims.specs.Standings.{is_number_name, is_variable_name};

use crate::choosing::add_choices;
use crate::claim::{Claim, Fact, Standing, Start, Value};
use crate::claiming::{add_naming, key_text};
use crate::demanding::add_having;
use crate::standings::{Known, standing_of};
use crate::usuals::{add_unread, add_usual, usual_kind};
use i7_sentences::{Assertion, Name};
use std::alloc::{AllocError, Global};

/// Whether a name of which this is known is a number property's.
fn is_number_name(standing: Option<&Standing>) -> bool
    ensures { result ≡ is_number_name (option_copied standing.entry) }
{
    matches!(standing, Some(Standing::Number))
}

/// Whether a name of which this is known is a variable's.
fn is_variable_name(standing: Option<&Standing>) -> bool
    ensures { result ≡ is_variable_name (option_copied standing.entry) }
{
    matches!(standing, Some(Standing::Variable))
}

/// Adds what a number property of an object is.
fn add_number_of(
    alloc: Global,
    known: &Known<'_>,
    claims: &mut Vec<Claim>,
    property: &Name,
    object: &Name,
    number: i32,
    line: u32,
) -> Result<(), AllocError>
    ensures { OnOk result (claims.new.items ≡ claims.old.items ++ number_claim (standing_at known.now) property.now object.now number line ∷ []) }
{
    let key = key_text(alloc, property)?;
    let property = key.as_slice();
    if is_number_name(standing_of(known, property)) {
        add_having(alloc, claims, object, property, Value::Amount(number), line)
    } else {
        add_unread(alloc, claims, property, line)
    }
}

/// Adds the object, and what a number property of it is.
fn add_number_claims(
    alloc: Global,
    known: &Known<'_>,
    claims: &mut Vec<Claim>,
    property: &Name,
    object: &Name,
    number: i32,
    line: u32,
) -> Result<(), AllocError>
    ensures { OnOk result (claims.new.items ≡ claims.old.items ++ number_claims (standing_at known.now) property.now object.now number line) }
{
    add_naming(alloc, claims, object, Standing::Object, line)?;
    add_number_of(alloc, known, claims, property, object, number, line)
}

/// Adds what a number property of objects of a kind usually is.
fn add_usual_number(
    alloc: Global,
    known: &Known<'_>,
    claims: &mut Vec<Claim>,
    property: &Name,
    kind: &Name,
    number: i32,
    line: u32,
) -> Result<(), AllocError>
    ensures { OnOk result (claims.new.items ≡ claims.old.items ++ usual_number (standing_at known.now) property.now kind.now number line ∷ []) }
{
    let key = key_text(alloc, property)?;
    let property = key.as_slice();
    if is_number_name(standing_of(known, property)) {
        let kind = usual_kind(alloc, known, kind)?;
        let value = Value::Amount(number);
        add_usual(alloc, claims, kind.as_slice(), property, value, line)
    } else {
        add_unread(alloc, claims, property, line)
    }
}

/// Adds what a variable starts at.
fn add_start(
    alloc: Global,
    known: &Known<'_>,
    claims: &mut Vec<Claim>,
    name: &Name,
    number: i32,
    line: u32,
) -> Result<(), AllocError>
    ensures { OnOk result (claims.new.items ≡ claims.old.items ++ start_claim (standing_at known.now) name.now number line ∷ []) }
{
    let variable = key_text(alloc, name)?;
    if is_variable_name(standing_of(known, variable.as_slice())) {
        claims.push(Claim {
            fact: Fact::Starts(Start { variable, number }),
            line,
        })?;
        Ok(())
    } else {
        add_unread(alloc, claims, variable.as_slice(), line)
    }
}

/// Adds what a sentence claims of numbers, and else what it claims of values and declares.
pub fn add_numbers(
    alloc: Global,
    known: &Known<'_>,
    claims: &mut Vec<Claim>,
    said: &Assertion,
    line: u32,
) -> Result<(), AllocError>
    ensures { OnOk result (claims.new.items ≡ claims.old.items ++ numbers_said (standing_at known.now) said.now line) }
{
    match said {
        Assertion::NumberOf {
            property,
            object,
            number,
        } => add_number_claims(alloc, known, claims, property, object, *number, line),
        Assertion::UsuallyNumber {
            property,
            kind,
            number,
        } => add_usual_number(alloc, known, claims, property, kind, *number, line),
        Assertion::VariableIs { variable, number } => {
            add_start(alloc, known, claims, variable, *number, line)
        }
        _ => add_choices(alloc, known, claims, said, line),
    }
}
