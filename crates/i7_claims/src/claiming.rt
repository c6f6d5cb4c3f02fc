//! What the sentences of a source claim.
ghost use Rattle.std.specs.Prelude.{◌≡◌, ◌++◌, ◌∷◌, [], flat_map, map, IfOk, OnOk};
ghost use Rattle.world_meaning.specs.Spelling.{lowered as small};
ghost use Rattle.i7_claims.specs.Beings.{holders_in};
ghost use Rattle.i7_claims.specs.Claims.{being_claims, claimed, claims_in, claims_of, claims_said, declares_said, either_or, grant_of, holding_claims, lies, named};
ghost use Rattle.i7_claims.specs.NameScans.{IsShort, standing_at};
ghost use Rattle.i7_claims.specs.Standings.{built_in_namings};
ghost use Rattle.i7_claims.specs.Statements.{key_of};
ghost use Rattle.i7_claims.specs.declared.claim.Fact.TheVariants.{CanBe, HasNumber, Rulebook};
ghost use Rattle.i7_claims.specs.declared.claim.Standing.TheVariants as stands;

use crate::choosing::{add_has_value, add_values};
use crate::claim::{Claim, Fact, Grant, Lying, Naming, Standing};
use crate::declaring::declares_of;
use crate::demanding::{add_held, add_placings, add_what};
use crate::leading::{add_door, add_way};
use crate::names::key_of;
use crate::numbering::add_numbers;
use crate::standings::{Known, known_after, longest_name};
use crate::usuals::add_usually;
use crate::wording::what_said;
use i7_sentences::{Assertion, Being, Holder, Name, Sentence};
use std::alloc::{AllocError, Global};
use world_meaning::{Rel, TextBytes, lowered};

/// The key of a name, as a text.
pub fn key_text(alloc: Global, name: &Name) -> Result<TextBytes, AllocError>
    ensures { IfOk result (λ key. key ≡ key_of name.now.text) }
{
    Ok(TextBytes::new(key_of(alloc, name.text.as_slice())?))
}

/// Adds that a name stands for something.
pub fn add_naming(
    alloc: Global,
    claims: &mut Vec<Claim>,
    name: &Name,
    standing: Standing,
    line: u32,
) -> Result<(), AllocError>
    ensures { OnOk result (claims.new.items ≡ claims.old.items ++ named standing line name.now ∷ []) }
{
    let name = key_text(alloc, name)?;
    claims.push(Claim {
        fact: Fact::Stands(Naming { name, standing }),
        line,
    })?;
    Ok(())
}

/// A kind and a property that it has.
pub fn grant_of(alloc: Global, kind: &Name, property: &Name) -> Result<Grant, AllocError>
    ensures { IfOk result (λ grant. grant ≡ grant_of kind.now property.now) }
{
    Ok(Grant {
        kind: key_text(alloc, kind)?,
        property: key_text(alloc, property)?,
    })
}

/// Adds that a kind can be something.
fn add_can_be(
    alloc: Global,
    claims: &mut Vec<Claim>,
    kind: &Name,
    property: &Name,
    line: u32,
) -> Result<(), AllocError>
    ensures { OnOk result (claims.new.items ≡ claims.old.items ++ claimed (CanBe (grant_of kind.now property.now)) line ∷ []) }
{
    let grant = grant_of(alloc, kind, property)?;
    claims.push(Claim {
        fact: Fact::CanBe(grant),
        line,
    })?;
    Ok(())
}

/// Adds a rulebook.
fn add_rulebook(
    alloc: Global,
    claims: &mut Vec<Claim>,
    name: &Name,
    line: u32,
) -> Result<(), AllocError>
    ensures { OnOk result (claims.new.items ≡ claims.old.items ++ claimed (Rulebook (small name.now.text)) line ∷ []) }
{
    let name = TextBytes::new(lowered(alloc, name.text.as_slice())?);
    claims.push(Claim {
        fact: Fact::Rulebook(name),
        line,
    })?;
    Ok(())
}

/// Adds a kind of another.
fn add_kind(
    alloc: Global,
    claims: &mut Vec<Claim>,
    kind: &Name,
    parent: &Name,
    line: u32,
) -> Result<(), AllocError>
    ensures { OnOk result (claims.new.items ≡ claims.old.items ++ named stands.Kind line kind.now ∷ lies kind.now parent.now line ∷ []) }
{
    add_naming(alloc, claims, kind, Standing::Kind, line)?;
    let lying = Lying {
        kind: key_text(alloc, kind)?,
        parent: key_text(alloc, parent)?,
    };
    claims.push(Claim {
        fact: Fact::Lies(lying),
        line,
    })?;
    Ok(())
}

/// Adds an either-or property.
fn add_either_or(
    alloc: Global,
    claims: &mut Vec<Claim>,
    kind: &Name,
    first: &Name,
    second: &Option<Name>,
    line: u32,
) -> Result<(), AllocError>
    ensures { OnOk result (claims.new.items ≡ claims.old.items ++ either_or kind.now first.now second.now line) }
{
    match second {
        None => {
            add_naming(alloc, claims, first, Standing::First(None), line)?;
            add_can_be(alloc, claims, kind, first, line)
        }
        Some(second) => {
            let known = Standing::First(Some(key_text(alloc, second)?));
            add_naming(alloc, claims, first, known, line)?;
            let known = Standing::Second(key_text(alloc, first)?);
            add_naming(alloc, claims, second, known, line)?;
            add_can_be(alloc, claims, kind, first, line)
        }
    }
}

/// Adds a number property.
fn add_number(
    alloc: Global,
    claims: &mut Vec<Claim>,
    kind: &Name,
    property: &Name,
    line: u32,
) -> Result<(), AllocError>
    ensures { OnOk result (claims.new.items ≡ claims.old.items ++ named stands.Number line property.now ∷ claimed (HasNumber (grant_of kind.now property.now)) line ∷ []) }
{
    add_naming(alloc, claims, property, Standing::Number, line)?;
    let grant = grant_of(alloc, kind, property)?;
    claims.push(Claim {
        fact: Fact::HasNumber(grant),
        line,
    })?;
    Ok(())
}

/// Adds the names of objects.
fn add_objects(
    alloc: Global,
    claims: &mut Vec<Claim>,
    names: &[Name],
    line: u32,
) -> Result<(), AllocError>
    ensures { OnOk result (claims.new.items ≡ claims.old.items ++ map (named stands.Object line) names.now) }
{
    let mut rest = names;
    while let [name, after @ ..] = rest {
        add_naming(alloc, claims, name, Standing::Object, line)?;
        rest = after;
    }
    Ok(())
}

/// Adds the name of what holds.
fn add_holder(
    alloc: Global,
    claims: &mut Vec<Claim>,
    place: &Option<Holder>,
    line: u32,
) -> Result<(), AllocError>
    ensures { OnOk result (claims.new.items ≡ claims.old.items ++ map (named stands.Object line) (holders_in place.now)) }
{
    match place {
        None => Ok(()),
        Some(holder) => add_naming(alloc, claims, &holder.name, Standing::Object, line),
    }
}

/// Adds what is claimed of objects that are said to be something.
fn add_being(
    alloc: Global,
    known: &Known<'_>,
    most: usize,
    claims: &mut Vec<Claim>,
    being: &Being,
    line: u32,
) -> Result<(), AllocError>
    requires short { IsShort most (standing_at known.now) }
    ensures { OnOk result (claims.new.items ≡ claims.old.items ++ being_claims (standing_at known.now) being.now line) }
{
    let subjects = being.subjects.as_slice();
    add_objects(alloc, claims, subjects, line)?;
    add_holder(alloc, claims, &being.place, line)?;
    let words = being.what.as_slice();
    let what = what_said(alloc, known, most, words)?;
    add_what(alloc, claims, &what, words, subjects, line)?;
    add_placings(alloc, claims, &being.place, subjects, line)
}

/// Adds what a sentence declares besides objects.
pub fn add_declares(
    alloc: Global,
    claims: &mut Vec<Claim>,
    said: &Assertion,
    line: u32,
) -> Result<(), AllocError>
    ensures { OnOk result (claims.new.items ≡ claims.old.items ++ declares_said said.now line) }
{
    match said {
        Assertion::Rulebook(name) => add_rulebook(alloc, claims, name, line),
        Assertion::Scene { name, is_recurring } => {
            add_naming(alloc, claims, name, Standing::Scene(*is_recurring), line)
        }
        Assertion::KindOfKind { kind, parent } => add_kind(alloc, claims, kind, parent, line),
        Assertion::EitherOr {
            kind,
            first,
            second,
        } => add_either_or(alloc, claims, kind, first, second, line),
        Assertion::NumberProperty { kind, property } => {
            add_number(alloc, claims, kind, property, line)
        }
        Assertion::Variable(name) => add_naming(alloc, claims, name, Standing::Variable, line),
        Assertion::ValueKind(name) => add_naming(alloc, claims, name, Standing::ValueKind, line),
        Assertion::Values { kind, values } => {
            add_values(alloc, claims, kind, values.as_slice(), line)
        }
        Assertion::HasValue { kind, property } => {
            add_has_value(alloc, claims, kind, property, line)
        }
        _ => Ok(()),
    }
}

/// Adds what is claimed of what holds things, and of them.
fn add_holding(
    alloc: Global,
    claims: &mut Vec<Claim>,
    holder: &Name,
    relation: Rel,
    things: &[Name],
    line: u32,
) -> Result<(), AllocError>
    ensures { OnOk result (claims.new.items ≡ claims.old.items ++ holding_claims holder.now relation things.now line) }
{
    add_naming(alloc, claims, holder, Standing::Object, line)?;
    add_objects(alloc, claims, things, line)?;
    add_held(alloc, claims, relation, holder, things, line)
}

/// Adds what a sentence claims.
fn add_claims(
    alloc: Global,
    known: &Known<'_>,
    most: usize,
    claims: &mut Vec<Claim>,
    said: &Assertion,
    line: u32,
) -> Result<(), AllocError>
    requires short { IsShort most (standing_at known.now) }
    ensures { OnOk result (claims.new.items ≡ claims.old.items ++ claims_said (standing_at known.now) said.now line) }
{
    match said {
        Assertion::Way(way) => add_way(alloc, claims, &way.subject, &way.room, line),
        Assertion::Door {
            door,
            first,
            second,
        } => add_door(alloc, claims, door, &first.room, &second.room, line),
        Assertion::DescriptionOf { object, .. } => {
            add_naming(alloc, claims, object, Standing::Object, line)
        }
        Assertion::Are(being) => add_being(alloc, known, most, claims, being, line),
        Assertion::Holds {
            holder,
            relation,
            things,
        } => add_holding(alloc, claims, holder, *relation, things.as_slice(), line),
        Assertion::Usually { kind, adjectives } => {
            add_usually(
                alloc,
                known,
                most,
                claims,
                kind,
                adjectives.as_slice(),
                line,
            )
        }
        _ => add_numbers(alloc, known, claims, said, line),
    }
}

/// What the sentences claim, where each name stands for this.
fn claims_with(
    alloc: Global,
    known: &Known<'_>,
    most: usize,
    sentences: &[Sentence],
) -> Result<Vec<Claim>, AllocError>
    requires short { IsShort most (standing_at known.now) }
    ensures { IfOk result (λ claims. claims.items ≡ flat_map (claims_in (standing_at known.now)) sentences.now) }
{
    let mut claims = Vec::new(alloc);
    let mut rest = sentences;
    while let [sentence, after @ ..] = rest {
        add_claims(
            alloc,
            known,
            most,
            &mut claims,
            &sentence.said,
            sentence.line,
        )?;
        rest = after;
    }
    Ok(claims)
}

/// What the sentences claim, where names stand for this before any of them.
#[tactic(auto, unfolding(crate::specs::NameScans::built_in_standings))]
pub fn claims_of(
    alloc: Global,
    built_in: &[Naming],
    sentences: &[Sentence],
) -> Result<Vec<Claim>, AllocError>
    requires { built_in.now ≡ built_in_namings }
    ensures { IfOk result (λ claims. claims.items ≡ claims_of sentences.now) }
{
    let declares = declares_of(alloc, sentences)?;
    let known = known_after(alloc, built_in, declares.as_slice())?;
    let most = longest_name(built_in, declares.as_slice());
    let claims = claims_with(alloc, &known, most, sentences)?;
    Ok(claims)
}
