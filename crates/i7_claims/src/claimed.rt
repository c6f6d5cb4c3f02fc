//! The sentences of a source with what they claim, the names of their objects and those of the language, each worked out once.
ghost use Rattle.std.specs.Prelude.{◌≡◌, IfOk};
ghost use Rattle.i7_claims.specs.Claims.{claims_of};
ghost use Rattle.i7_claims.specs.Standings.{built_in_namings};
ghost use Rattle.i7_claims.specs.Statements.{named_by};
ghost use Rattle.i7_claims.specs.Views.{names_of};

use crate::built_in::built_in_namings;
use crate::claim::{Claim, Naming};
use crate::claiming::claims_of;
use crate::names::{Names, names_of};
use i7_sentences::Sentence;
use std::alloc::{AllocError, Global};
use std::marker::Model;

/// The sentences of a source, what names stand for before any of them, what they claim, and the names of their objects.
/// Contracts see the sentences.
#[derive(Drop)]
pub struct Claimed<'a> {
    sentences: &'a [Sentence],
    built_in: Vec<Naming>,
    claims: Vec<Claim>,
    names: Names<'a>,
}

impl<'a> Model for Claimed<'a> {
    ghost use Rattle.std.specs.Prelude.{◌≡◌, List};
    ghost use Rattle.i7_sentences.specs.declared.sentence.Sentence.{Sentence};

    ghost Value = { List Sentence };

    ghost use Rattle.i7_claims.specs.Claims.{claims_of};
    ghost use Rattle.i7_claims.specs.Standings.{built_in_namings};
    ghost use Rattle.i7_claims.specs.Statements.{named_by};
    ghost use Rattle.i7_claims.specs.Views.{names_of};

    ghost view = { λ c. c.sentences.now };

    ghost invariant = { λ c. (c.built_in.items ≡ built_in_namings) × (c.claims.items ≡ claims_of c.sentences.now) × (names_of c.names ≡ named_by c.sentences.now) };
}

impl<'a> Claimed<'a> {
    /// What these sentences claim.
    pub fn new(alloc: Global, sentences: &'a [Sentence]) -> Result<Claimed<'a>, AllocError>
        ensures { IfOk result (λ claimed. claimed ≡ sentences.now) }
    {
        let built_in = built_in_namings(alloc)?;
        let claims = claims_of(alloc, built_in.as_slice(), sentences)?;
        let names = names_of(alloc, sentences)?;
        Ok(Claimed {
            sentences,
            built_in,
            claims,
            names,
        })
    }

    /// The sentences.
    pub fn sentences(&self) -> &'a [Sentence]
        ensures { result.now ≡ self.now }
    {
        self.sentences
    }

    /// What names stand for before any sentence.
    pub fn built_in(&self) -> &[Naming]
        ensures { result.now ≡ built_in_namings }
    {
        self.built_in.as_slice()
    }

    /// What they claim, in order.
    pub fn claims(&self) -> &[Claim]
        ensures { result.now ≡ claims_of self.now }
    {
        self.claims.as_slice()
    }

    /// The names of the objects, by number.
    pub fn names(&self) -> &Names<'a>
        ensures { names_of result.now ≡ named_by self.now }
    {
        &self.names
    }
}
