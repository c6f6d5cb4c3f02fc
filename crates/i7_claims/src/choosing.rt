//! What sentences claim of kinds of value and of their values.
ghost use Rattle.std.specs.Prelude.{◌≡◌, ◌++◌, ◌∷◌, [], IfOk, OnOk, map, option_copied};
ghost use Rattle.i7_claims.specs.Claims.{choice_by, choice_claim, choice_in, choices_said, claimed, grant_of, listed_values, usual_choice, value_claims, values_from};
ghost use Rattle.i7_claims.specs.NameScans.{standing_at};
ghost use Rattle.i7_claims.specs.Statements.{key_of};
ghost use Rattle.i7_claims.specs.declared.claim.Fact.TheVariants.{HasValue};

use crate::claim::{Claim, Fact, Listing, NamedValue, Standing, Value};
use crate::claiming::{add_declares, add_naming, grant_of, key_text};
use crate::demanding::add_having;
use crate::standings::{Known, standing_of};
use crate::usuals::{add_unread, add_usual, usual_kind};
use i7_sentences::{Assertion, Name};
use std::alloc::{AllocError, Global};
use world_meaning::{Listed, TextBytes};

/// What a value's name says of a kind of value.
fn choice_by(standing: &Standing, kind: &[u8]) -> Option<Value>
    ensures { result ≡ choice_by standing.now kind.now }
{
    match standing {
        Standing::Value(value) => {
            if value.kind.as_slice() == kind {
                Some(Value::Choice(value.place))
            } else {
                Some(Value::Never)
            }
        }
        _ => None,
    }
}

/// What a name of which this is known says of a kind of value; none where it is no value's.
fn choice_in(standing: Option<&Standing>, kind: &[u8]) -> Option<Value>
    ensures { result ≡ choice_in (option_copied standing.entry) kind.now }
{
    match standing {
        None => None,
        Some(standing) => choice_by(standing, kind),
    }
}

/// Adds the values from this place on.
fn add_values_from(
    alloc: Global,
    claims: &mut Vec<Claim>,
    kind: &[u8],
    values: &[Name],
    line: u32,
) -> Result<(), AllocError>
    ensures { OnOk result (claims.new.items ≡ claims.old.items ++ values_from kind.now line 0 values.now) }
{
    let mut place = 0;
    let mut rest = values;
    while let [value, after @ ..] = rest {
        let kind = TextBytes::copied(alloc, kind)?;
        let standing = Standing::Value(NamedValue { kind, place });
        add_naming(alloc, claims, value, standing, line)?;
        place += 1;
        rest = after;
    }
    Ok(())
}

/// What names are, as they are written.
fn texts_of(alloc: Global, names: &[Name]) -> Result<Vec<TextBytes>, AllocError>
    ensures { IfOk result (λ texts. texts.items ≡ map (λ name. name.text) names.now) }
{
    let mut texts = Vec::new(alloc);
    let mut rest = names;
    while let [name, after @ ..] = rest {
        texts.push(TextBytes::copied(alloc, name.text.as_slice())?)?;
        rest = after;
    }
    Ok(texts)
}

fn listing_of(alloc: Global, kind: &Name, values: &[Name]) -> Result<Listing, AllocError>
    ensures { IfOk result (λ listing. listing ≡ record { kind = key_of kind.now.text; values = map (λ value. value.text) values.now }) }
{
    Ok(Listing {
        kind: key_text(alloc, kind)?,
        values: Listed::new(texts_of(alloc, values)?),
    })
}

/// Adds the values of a kind of value, in order.
pub fn add_values(
    alloc: Global,
    claims: &mut Vec<Claim>,
    kind: &Name,
    values: &[Name],
    line: u32,
) -> Result<(), AllocError>
    ensures { OnOk result (claims.new.items ≡ claims.old.items ++ listed_values kind.now values.now line) }
{
    let listing = listing_of(alloc, kind, values)?;
    let kind = TextBytes::copied(alloc, listing.kind.as_slice())?;
    claims.push(Claim {
        fact: Fact::Values(listing),
        line,
    })?;
    add_values_from(alloc, claims, kind.as_slice(), values, line)
}

/// Adds that objects of a kind have a value of a kind of value.
pub fn add_has_value(
    alloc: Global,
    claims: &mut Vec<Claim>,
    kind: &Name,
    property: &Name,
    line: u32,
) -> Result<(), AllocError>
    ensures { OnOk result (claims.new.items ≡ claims.old.items ++ claimed (HasValue (grant_of kind.now property.now)) line ∷ []) }
{
    let grant = grant_of(alloc, kind, property)?;
    claims.push(Claim {
        fact: Fact::HasValue(grant),
        line,
    })?;
    Ok(())
}

/// Adds which value an object has of a kind of value.
fn add_choice(
    alloc: Global,
    known: &Known<'_>,
    claims: &mut Vec<Claim>,
    property: &Name,
    object: &Name,
    value: &Name,
    line: u32,
) -> Result<(), AllocError>
    ensures { OnOk result (claims.new.items ≡ claims.old.items ++ choice_claim (standing_at known.now) property.now object.now value.now line ∷ []) }
{
    let property = key_text(alloc, property)?;
    let name = key_text(alloc, value)?;
    match choice_in(standing_of(known, name.as_slice()), property.as_slice()) {
        None => add_unread(alloc, claims, name.as_slice(), line),
        Some(value) => add_having(alloc, claims, object, property.as_slice(), value, line),
    }
}

/// Adds the object, and which value it has of a kind of value.
fn add_value_claims(
    alloc: Global,
    known: &Known<'_>,
    claims: &mut Vec<Claim>,
    property: &Name,
    object: &Name,
    value: &Name,
    line: u32,
) -> Result<(), AllocError>
    ensures { OnOk result (claims.new.items ≡ claims.old.items ++ value_claims (standing_at known.now) property.now object.now value.now line) }
{
    add_naming(alloc, claims, object, Standing::Object, line)?;
    add_choice(alloc, known, claims, property, object, value, line)
}

/// Adds which value objects of a kind usually have of a kind of value.
fn add_usual_choice(
    alloc: Global,
    known: &Known<'_>,
    claims: &mut Vec<Claim>,
    property: &Name,
    kind: &Name,
    value: &Name,
    line: u32,
) -> Result<(), AllocError>
    ensures { OnOk result (claims.new.items ≡ claims.old.items ++ usual_choice (standing_at known.now) property.now kind.now value.now line ∷ []) }
{
    let property = key_text(alloc, property)?;
    let name = key_text(alloc, value)?;
    match choice_in(standing_of(known, name.as_slice()), property.as_slice()) {
        None => add_unread(alloc, claims, name.as_slice(), line),
        Some(value) => {
            let kind = usual_kind(alloc, known, kind)?;
            add_usual(
                alloc,
                claims,
                kind.as_slice(),
                property.as_slice(),
                value,
                line,
            )
        }
    }
}

/// Adds what a sentence claims of values, and else what it declares.
pub fn add_choices(
    alloc: Global,
    known: &Known<'_>,
    claims: &mut Vec<Claim>,
    said: &Assertion,
    line: u32,
) -> Result<(), AllocError>
    ensures { OnOk result (claims.new.items ≡ claims.old.items ++ choices_said (standing_at known.now) said.now line) }
{
    match said {
        Assertion::ValueOf {
            property,
            object,
            value,
        } => add_value_claims(alloc, known, claims, property, object, value, line),
        Assertion::UsuallyValue {
            property,
            kind,
            value,
        } => add_usual_choice(alloc, known, claims, property, kind, value, line),
        _ => add_declares(alloc, claims, said, line),
    }
}
