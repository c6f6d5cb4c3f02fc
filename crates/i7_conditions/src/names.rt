//! The names of a tale and what each stands for: `Object(13)` for `ball`, `Kind(0)` for `thing`.
ghost use Rattle.std.specs.Prelude.{◌≡◌, ◌||◌, false, OnOk};
ghost use Rattle.i7_conditions.specs.Meanings.{meaning_at, no_kinds, no_meanings, plural_at, with_kind, with_meaning};

use crate::meaning::Meaning;
use crate::operator::holds_operator;
use indexmap::IndexMap;
use std::alloc::{AllocError, Global};
use world_meaning::{KindNo, lowered};

/// What names stand for, and the plurals of kinds, which are no names. All are kept in small letters.
#[derive(Drop)]
pub struct Names {
    meanings: IndexMap<Vec<u8>, Meaning>,
    plurals: IndexMap<Vec<u8>, KindNo>,
    /// Whether `plus`, `minus` or `times` is a word of one of them.
    with_operator: bool,
}

/// Keeps what a name stands for, unless something is known of it.
fn keep(
    meanings: &mut IndexMap<Vec<u8>, Meaning>,
    name: Vec<u8>,
    meaning: Meaning,
) -> Result<(), AllocError>
    ensures { OnOk result (meaning_at meanings.new ≡ with_meaning (meaning_at meanings.old) name.items meaning) }
{
    if meanings.get(name.as_slice()).is_none() {
        meanings.insert(name, meaning)?;
    }
    Ok(())
}

/// Keeps the kind of a plural, unless one is known.
fn keep_plural(
    plurals: &mut IndexMap<Vec<u8>, KindNo>,
    plural: Vec<u8>,
    kind: KindNo,
) -> Result<(), AllocError>
    ensures { OnOk result (plural_at plurals.new ≡ with_kind (plural_at plurals.old) plural.items kind) }
{
    if plurals.get(plural.as_slice()).is_none() {
        plurals.insert(plural, kind)?;
    }
    Ok(())
}

impl Names {
    ghost use Rattle.world_meaning.specs.Spelling.{lowered};
    ghost use Rattle.i7_conditions.specs.NamesOf.{has_operators, meanings_of, plurals_of};
    ghost use Rattle.i7_conditions.specs.Operators.{holds_operator};

    /// No names.
    pub fn new(alloc: Global) -> Names
        ensures names { meanings_of result ≡ no_meanings }
        ensures plurals { plurals_of result ≡ no_kinds }
        ensures operators { has_operators result ≡ false }
    {
        Names {
            meanings: IndexMap::new(alloc),
            plurals: IndexMap::new(alloc),
            with_operator: false,
        }
    }

    /// Adds a name; one that stands for something already stays as it is.
    pub fn add(&mut self, alloc: Global, name: &[u8], meaning: Meaning) -> Result<(), AllocError>
        ensures names { OnOk result (meanings_of self.new ≡ with_meaning (meanings_of self.old) (lowered name.now) meaning) }
        ensures plurals { OnOk result (plurals_of self.new ≡ plurals_of self.old) }
        ensures operators { OnOk result (has_operators self.new ≡ (has_operators self.old || holds_operator name.now)) }
    {
        self.with_operator = self.with_operator || holds_operator(name);
        let name = lowered(alloc, name)?;
        keep(&mut self.meanings, name, meaning)
    }

    /// Adds a kind's plural; one that is a kind's already stays as it is.
    pub fn add_plural(
        &mut self,
        alloc: Global,
        plural: &[u8],
        kind: KindNo,
    ) -> Result<(), AllocError>
        ensures plurals { OnOk result (plurals_of self.new ≡ with_kind (plurals_of self.old) (lowered plural.now) kind) }
        ensures names { OnOk result (meanings_of self.new ≡ meanings_of self.old) }
        ensures operators { OnOk result (has_operators self.new ≡ (has_operators self.old || holds_operator plural.now)) }
    {
        self.with_operator = self.with_operator || holds_operator(plural);
        let plural = lowered(alloc, plural)?;
        keep_plural(&mut self.plurals, plural, kind)
    }

    /// What a name in small letters stands for.
    pub fn meaning(&self, name: &[u8]) -> Option<Meaning>
        ensures { result ≡ meanings_of self.now name.now }
    {
        self.meanings.get(name).copied()
    }

    /// Whether `plus`, `minus` or `times` is a word of a name or of a plural.
    pub fn has_operators(&self) -> bool
        ensures { result ≡ has_operators self.now }
    {
        self.with_operator
    }

    /// The kind that a plural in small letters is of.
    pub fn plural(&self, plural: &[u8]) -> Option<KindNo>
        ensures { result ≡ plurals_of self.now plural.now }
    {
        self.plurals.get(plural).copied()
    }
}
