//! Which repeats stand around a phrase (*Writing with Inform*, 11.9): the name that one gives is known as far as phrases are
//! deeper than it.
ghost use Rattle.std.specs.Prelude.{◌≡◌, ℕ, List, OnOk, reverse};
ghost use Rattle.i7_phrases.specs.Around.{around_of, entered, is_left, left, names_around, none_open, open_behind, passed, shut};
ghost use Rattle.i7_sentences.specs.declared.rule.RulePhrase.{RulePhrase as Phrase};

use i7_conditions::key_of;
use i7_sentences::{RulePhrase, Spoken};
use std::alloc::{AllocError, Global};
use world_meaning::TextBytes;

/// The repeats that are open behind some phrases of a body, the outermost first.
#[derive(Drop)]
pub struct Around {
    /// How many blocks stand around each.
    depths: Vec<usize>,
    /// The name that each gives to its object.
    names: Vec<TextBytes>,
}

impl Around {
    /// In front of a body: no repeat is open.
    pub fn new(alloc: Global) -> Around
        ensures { around_of result ≡ none_open }
    {
        Around {
            depths: Vec::new(alloc),
            names: Vec::new(alloc),
        }
    }

    /// The names that the open repeats give to their objects, the outermost first, in small letters.
    pub fn names(&self) -> &[TextBytes]
        ensures { reverse result.now ≡ (around_of self.now).names }
    {
        self.names.as_slice()
    }

    /// Whether a phrase that so many blocks stand around isn't one of the innermost repeat.
    fn is_left(&self, depth: usize) -> bool
        ensures { result ≡ is_left depth (around_of self.now) }
    {
        match self.depths.last() {
            None => false,
            Some(last) => *last >= depth,
        }
    }

    /// The innermost repeat is behind.
    fn shut(&mut self)
        ensures { around_of self.new ≡ shut (around_of self.old) }
    {
        let _ = self.depths.pop();
        let _ = self.names.pop();
    }

    /// A repeat begins that so many blocks stand around.
    fn enter(&mut self, depth: usize, name: TextBytes) -> Result<(), AllocError>
        ensures { OnOk result (around_of self.new ≡ entered depth name (around_of self.old)) }
    {
        self.depths.push(depth)?;
        self.names.push(name)?;
        Ok(())
    }

    /// A phrase comes that so many blocks stand around: the repeats that it isn't one of are behind.
    pub fn leave(&mut self, depth: usize)
        ensures { around_of self.new ≡ left depth (around_of self.old) }
    {
        while self.is_left(depth) {
            self.shut();
        }
    }

    /// A phrase is behind: it left repeats, and may be one. Where memory is refused, nothing is said of what is open.
    pub fn pass(&mut self, alloc: Global, phrase: &RulePhrase) -> Result<(), AllocError>
        ensures { OnOk result (around_of self.new ≡ passed phrase.now (around_of self.old)) }
    {
        self.leave(phrase.depth);
        match &phrase.said {
            Spoken::Repeat { name, .. } => {
                let name = key_of(alloc, name.as_slice())?;
                self.enter(phrase.depth, TextBytes::new(name))
            }
            _ => Ok(()),
        }
    }
}

/// The repeats that are open where a phrase comes are those that stand around it.
pub fn open_repeats_stand_around()
    ensures { (depth : ℕ) (before : List Phrase) → (left depth (open_behind before)).names ≡ names_around depth before }
{}
