//! Strings in the order in which they are first mentioned, each once.
ghost use Rattle.std.specs.Prelude.{◌≡◌, [], OnOk, length, map, position};
ghost use Rattle.std.specs.List.{list_any};
ghost use Rattle.std.specs.Str.{bytes_eq};
ghost use Rattle.object_words.specs.Mentions.{mention, number_in};

use indexmap::IndexSet;
use std::alloc::{AllocError, Global};
use std::marker::Model;

/// The number that stands for none.
const NONE: u16 = 65535;

/// The strings mentioned so far.
#[derive(Drop)]
pub struct Strings {
    set: IndexSet<Vec<u8>>,
}

impl Model for Strings {
    ghost use Rattle.std.specs.Prelude.{ℕ, List, map};

    ghost Value = { List (List ℕ) };

    ghost view = { λ s. map (λ string. string.items) s.set.keys };
}

impl Strings {
    /// No strings.
    pub fn new(alloc: Global) -> Strings
        ensures { result ≡ [] }
    {
        Strings {
            set: IndexSet::new(alloc),
        }
    }

    /// Puts the string behind the others, unless it is there.
    pub fn mention(&mut self, alloc: Global, string: &[u8]) -> Result<(), AllocError>
        ensures { OnOk result (self.new ≡ mention self.old string.now) }
    {
        if !self.set.contains(string) {
            self.set.insert(Vec::from_slice(alloc, string)?)?;
        }
        Ok(())
    }

    /// How many they are.
    #[tactic(auto, using(crate::proofs::StringLemmas::length_mapped))]
    pub fn len(&self) -> usize
        ensures { result ≡ length self.now }
    {
        self.as_slice().len()
    }

    /// Whether the string is among them.
    pub fn contains(&self, string: &[u8]) -> bool
        ensures { result ≡ list_any (bytes_eq string.now) self.now }
    {
        self.set.contains(string)
    }

    /// The string's place among them, counted from 0.
    pub fn place_of(&self, string: &[u8]) -> Option<usize>
        ensures { result ≡ position (bytes_eq string.now) self.now }
    {
        self.set.get_index_of(string)
    }

    /// The string's number: its place, counted from 0.
    pub fn number_of(&self, string: &[u8]) -> u16
        ensures { result ≡ number_in self.now string.now }
    {
        match self.set.get_index_of(string) {
            None => NONE,
            Some(place) => place.min(65535) as u16,
        }
    }

    /// The strings, in order.
    pub fn as_slice(&self) -> &[Vec<u8>]
        ensures { map (λ string. string.items) result.now ≡ self.now }
    {
        self.set.as_slice()
    }
}
