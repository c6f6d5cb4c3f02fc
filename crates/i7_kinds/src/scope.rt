//! The names of a source's objects, kinds, properties and variables, by number, which kind lies under which, which
//! kinds sentences give a property to, and of which objects they demand a door.
ghost use Rattle.std.specs.Prelude.{◌≡◌};
ghost use Rattle.i7_claims.specs.Standings.{built_in_namings};

use crate::author_kinds::is_under;
use crate::grants::Given;
use i7_claims::{Naming, number_in};
use object_words::Strings;
use std::marker::Model;

/// The names of objects, of kinds and of properties, the either-or ones first, of each kind the kind above it, the
/// kinds that properties are given to, the objects of which doors are demanded, and the names of variables; and what
/// names stand for before any sentence, which is the same for every source, so that contracts don't see it.
#[derive(Drop)]
pub struct Scope<'a> {
    objects: &'a Strings,
    kinds: &'a Strings,
    parents: &'a [Option<usize>],
    properties: &'a Strings,
    givens: &'a [Given],
    doors: &'a Strings,
    variables: &'a Strings,
    built_in: &'a [Naming],
}

impl<'a> Model for Scope<'a> {
    ghost use Rattle.i7_kinds.specs.Knowns.{Scope as Names, scope_of_names};

    ghost Value = { Names };

    ghost view = { λ s. scope_of_names s.objects.now s.kinds.now s.parents.now s.properties.now s.givens.now s.doors.now s.variables.now };

    ghost use Rattle.std.specs.Prelude.{◌≡◌};
    ghost use Rattle.i7_claims.specs.Standings.{built_in_namings};

    ghost invariant = { λ s. s.built_in.now ≡ built_in_namings };
}

impl<'a> Scope<'a> {
    ghost use Rattle.std.specs.Prelude.{IfSome, is_some, length};
    ghost use Rattle.world_meaning.specs.Kinds.{is_under};
    ghost use Rattle.i7_kinds.specs.Knowns.{scope_of_names};
    ghost use Rattle.i7_claims.specs.Numbers.{has_name, number_in};

    /// Objects of these names, kinds, properties and variables of these.
    pub fn new(
        objects: &'a Strings,
        kinds: &'a Strings,
        parents: &'a [Option<usize>],
        properties: &'a Strings,
        givens: &'a [Given],
        doors: &'a Strings,
        variables: &'a Strings,
        built_in: &'a [Naming],
    ) -> Scope<'a>
        requires { built_in.now ≡ built_in_namings }
        ensures { result ≡ scope_of_names objects.now kinds.now parents.now properties.now givens.now doors.now variables.now }
    {
        Scope {
            objects,
            kinds,
            parents,
            properties,
            givens,
            doors,
            variables,
            built_in,
        }
    }

    /// What names stand for before any sentence.
    pub fn built_in(&self) -> &'a [Naming]
        ensures { result.now ≡ built_in_namings }
    {
        self.built_in
    }

    /// The number of the variable of this name.
    pub fn variable(&self, key: &[u8]) -> usize
        ensures { result ≡ number_in self.now.variables key.now }
    {
        number_in(self.variables, key)
    }

    /// The number of the property of this first name.
    pub fn property(&self, key: &[u8]) -> usize
        ensures { result ≡ number_in self.now.properties key.now }
    {
        number_in(self.properties, key)
    }

    /// The kinds that sentences give properties to.
    pub fn givens(&self) -> &'a [Given]
        ensures { result.now ≡ self.now.givens }
    {
        self.givens
    }

    /// Whether a sentence demands a door of the object of this name.
    pub fn is_door(&self, key: &[u8]) -> bool
        ensures { result ≡ has_name self.now.doors key.now }
    {
        self.doors.contains(key)
    }

    /// The number of the object of this name.
    pub fn object(&self, key: &[u8]) -> usize
        ensures { result ≡ number_in self.now.objects key.now }
    {
        number_in(self.objects, key)
    }

    /// The number of the kind of this name.
    pub fn kind(&self, key: &[u8]) -> usize
        ensures { result ≡ number_in self.now.kinds key.now }
    {
        number_in(self.kinds, key)
    }

    /// The number of the kind of this name, if there is one.
    pub fn kind_named(&self, key: &[u8]) -> Option<usize>
        ensures there { is_some result ≡ has_name self.now.kinds key.now }
        ensures number { IfSome result (λ kind. kind ≡ number_in self.now.kinds key.now) }
    {
        self.kinds.place_of(key)
    }

    /// How many objects there are.
    pub fn count(&self) -> usize
        ensures { result ≡ length self.now.objects }
    {
        self.objects.len()
    }

    /// The names of the kinds.
    pub fn kinds(&self) -> &'a Strings
        ensures { result.now ≡ self.now.kinds }
    {
        self.kinds
    }

    /// Of each kind, by number, the kind above it.
    pub fn parents(&self) -> &'a [Option<usize>]
        ensures { result.now ≡ self.now.parents }
    {
        self.parents
    }

    /// Whether a kind lies under another, or is it.
    pub fn is_under(&self, kind: usize, other: usize) -> bool
        ensures { result ≡ is_under self.now.parents kind other }
    {
        is_under(self.parents, kind, other)
    }
}
