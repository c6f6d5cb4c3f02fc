//! What the names of a source stand for.
ghost use Rattle.std.specs.Prelude.{◌≡◌, IfOk};
ghost use Rattle.i7_claims.specs.Standings.{built_in_namings};
ghost use Rattle.i7_names.specs.Known.{known_of};
ghost use Rattle.i7_names.specs.SourceNames.{known_by, known_in, names_in, rulebooks_by, rulebooks_in, scene_count, scenes_by};

use crate::naming::named_in;
use crate::numbering::{Numbering, numbering_of};
use crate::plural_names::add_plurals;
use i7_claims::{Claim, Claimed, Naming, Sort, names_as};
use i7_conditions::Names;
use object_words::Strings;
use std::alloc::{AllocError, Global};

/// What the names of a source stand for, its rulebooks, and how many scenes it has.
#[derive(Drop)]
pub struct SourceNames {
    pub names: Names,
    /// The names of the author's rulebooks in small letters, by number. They are apart from all others: a scene and a
    /// rulebook may have one name.
    pub rulebooks: Strings,
    pub scenes: usize,
}

/// What names and plurals stand for by these numbers and claims.
fn known_in(
    alloc: Global,
    numbering: &Numbering<'_>,
    built_in: &[Naming],
    claims: &[Claim],
) -> Result<Names, AllocError>
    requires { built_in.now ≡ built_in_namings }
    ensures { IfOk result (λ names. known_of names ≡ known_in numbering.now claims.now) }
{
    let mut names = named_in(alloc, numbering, built_in, claims)?;
    add_plurals(alloc, numbering.kinds(), &mut names)?;
    Ok(names)
}

/// What names stand for by these claims, where the objects have these names.
#[tactic(auto, unfolding(crate::specs::SourceNames::known_by))]
fn known_by(
    alloc: Global,
    objects: &Strings,
    built_in: &[Naming],
    claims: &[Claim],
) -> Result<Names, AllocError>
    requires { built_in.now ≡ built_in_namings }
    ensures { IfOk result (λ names. known_of names ≡ known_by objects.now claims.now) }
{
    let numbering = numbering_of(alloc, objects, claims)?;
    let names = known_in(alloc, &numbering, built_in, claims);
    drop(numbering);
    Ok(names?)
}

/// The names of the author's rulebooks.
#[tactic(auto, unfolding(crate::specs::SourceNames::rulebooks_by))]
fn rulebooks_by(alloc: Global, claims: &[Claim]) -> Result<Strings, AllocError>
    ensures { IfOk result (λ names. names ≡ rulebooks_by claims.now) }
{
    names_as(alloc, Sort::Rulebook, claims)
}

/// How many scenes the claims declare.
#[tactic(auto, unfolding(crate::specs::SourceNames::scenes_by))]
fn scenes_by(alloc: Global, claims: &[Claim]) -> Result<usize, AllocError>
    ensures { IfOk result (λ count. count ≡ scenes_by claims.now) }
{
    let scenes = names_as(alloc, Sort::Scene, claims)?;
    Ok(scenes.len())
}

/// What the names of a source stand for: what is claimed of each first, with its number among those of its sort. The
/// objects are the player, the twelve directions and the author's by first mention; kinds and either-or properties are
/// numbered behind the built-in ones, number properties, variables and scenes from 0.
pub fn names_in(alloc: Global, claimed: &Claimed<'_>) -> Result<SourceNames, AllocError>
    ensures names { IfOk result (λ source. known_of source.names ≡ names_in claimed.now) }
    ensures rulebooks { IfOk result (λ source. source.rulebooks ≡ rulebooks_in claimed.now) }
    ensures scenes { IfOk result (λ source. source.scenes ≡ scene_count claimed.now) }
{
    let claims = claimed.claims();
    let built_in = claimed.built_in();
    let names = known_by(alloc, claimed.names().keys(), built_in, claims)?;
    let rulebooks = rulebooks_by(alloc, claims)?;
    let scenes = scenes_by(alloc, claims)?;
    Ok(SourceNames {
        names,
        rulebooks,
        scenes,
    })
}
