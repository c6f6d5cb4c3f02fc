//! The names that stand for something: the words of the language, and those that the sentences of a source claim.
ghost use Rattle.std.specs.Prelude.{◌≡◌, IfOk, OnOk, fold};
ghost use Rattle.i7_claims.specs.Standings.{built_in_namings};
ghost use Rattle.i7_names.specs.Known.{known_of, with_name};
ghost use Rattle.i7_names.specs.Meant.{named_in, with_claim, with_fact, with_naming};

use crate::meant::meaning_as;
use crate::numbering::Numbering;
use i7_claims::{Claim, Fact, Naming};
use i7_conditions::{Meaning, Names};
use std::alloc::{AllocError, Global};

/// Adds a name, if it stands for something.
fn add_name(
    alloc: Global,
    names: &mut Names,
    name: &[u8],
    meaning: Option<Meaning>,
) -> Result<(), AllocError>
    ensures { OnOk result (known_of names.new ≡ with_name (known_of names.old) name.now meaning) }
{
    match meaning {
        None => Ok(()),
        Some(meaning) => names.add(alloc, name, meaning),
    }
}

/// Adds a name by what it is claimed to stand for.
fn add_naming(
    alloc: Global,
    numbering: &Numbering<'_>,
    names: &mut Names,
    naming: &Naming,
) -> Result<(), AllocError>
    ensures { OnOk result (known_of names.new ≡ with_naming numbering.now (known_of names.old) naming.now) }
{
    let name = naming.name.as_slice();
    let meaning = meaning_as(numbering, name, &naming.standing);
    add_name(alloc, names, name, meaning)
}

/// Adds names by what they are claimed to stand for.
fn add_namings(
    alloc: Global,
    numbering: &Numbering<'_>,
    names: &mut Names,
    namings: &[Naming],
) -> Result<(), AllocError>
    ensures { OnOk result (known_of names.new ≡ fold (with_naming numbering.now) (known_of names.old) namings.now) }
{
    let mut rest = namings;
    while let [naming, after @ ..] = rest {
        add_naming(alloc, numbering, names, naming)?;
        rest = after;
    }
    Ok(())
}

/// Adds the name of a fact that claims what one stands for.
fn add_fact(
    alloc: Global,
    numbering: &Numbering<'_>,
    names: &mut Names,
    fact: &Fact,
) -> Result<(), AllocError>
    ensures { OnOk result (known_of names.new ≡ with_fact numbering.now (known_of names.old) fact.now) }
{
    match fact {
        Fact::Stands(naming) => add_naming(alloc, numbering, names, naming),
        _ => Ok(()),
    }
}

/// Adds the names of the claims.
fn add_claims(
    alloc: Global,
    numbering: &Numbering<'_>,
    names: &mut Names,
    claims: &[Claim],
) -> Result<(), AllocError>
    ensures { OnOk result (known_of names.new ≡ fold (with_claim numbering.now) (known_of names.old) claims.now) }
{
    let mut rest = claims;
    while let [claim, after @ ..] = rest {
        add_fact(alloc, numbering, names, &claim.fact)?;
        rest = after;
    }
    Ok(())
}

/// The names of the words of the language, which stand for this, and of the claims, by these numbers.
#[tactic(auto, unfolding(crate::specs::Meant::named_in))]
pub fn named_in(
    alloc: Global,
    numbering: &Numbering<'_>,
    built_in: &[Naming],
    claims: &[Claim],
) -> Result<Names, AllocError>
    requires { built_in.now ≡ built_in_namings }
    ensures { IfOk result (λ names. known_of names ≡ named_in numbering.now claims.now) }
{
    let mut names = Names::new(alloc);
    add_namings(alloc, numbering, &mut names, built_in)?;
    add_claims(alloc, numbering, &mut names, claims)?;
    Ok(names)
}
