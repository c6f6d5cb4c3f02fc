//! What a story gives to play of its kinds of value.
ghost use Rattle.std.specs.Prelude.{◌≡◌, ◌≤◌, [], IfOk, count_by, length, drop, map, slice_index_or, take};
ghost use Rattle.world_meaning.specs.Declarations.{has_property, is_had};
ghost use Rattle.story_format.specs.Facts.{text_at};
ghost use Rattle.story_format.specs.InPlay.{first_own, has_value, start_value, start_values, value_names};

use crate::Story;
use crate::tables::{Entry, Tables};
use crate::value_tables::ValueEntry;
use crate::world_checks::is_had;
use std::alloc::{AllocError, Global};
use world_meaning::{KindNo, Listed, ObjNo};

/// Whether objects of a kind have a value of the kind of value of a number.
fn kind_has(parents: &[Option<KindNo>], values: &[ValueEntry], kind: KindNo, number: usize) -> bool
    ensures { result ≡ has_property parents.now (map (λ v. v.given) values.now) kind number }
{
    match values.get(number) {
        Some(one) => is_had(parents, kind, &one.given),
        None => false,
    }
}

/// Of how many of these kinds of value objects of a kind have a value.
fn count_had(parents: &[Option<KindNo>], kind: KindNo, values: &[ValueEntry]) -> usize
    ensures { result ≡ count_by (is_had parents.now kind) (map (λ v. v.given) values.now) }
{
    let mut count = 0usize;
    let mut rest = values;
    while let [one, after @ ..] = rest {
        if is_had(parents, kind, &one.given) {
            count += 1;
        }
        rest = after;
    }
    count
}

/// Of how many of the first so many kinds of value objects of a kind have a value.
#[tactic(auto, using(crate::proofs::ValueLemmas::given_before))]
fn count_before(
    parents: &[Option<KindNo>],
    values: &[ValueEntry],
    kind: KindNo,
    number: usize,
) -> usize
    ensures { result ≡ count_by (is_had parents.now kind) (take number (map (λ v. v.given) values.now)) }
{
    let (before, _) = values.split_at(number.min(values.len()));
    count_had(parents, kind, before)
}

/// The value at a place; 0 where there is none.
fn value_at(own: &[u8], place: usize) -> u8
    ensures { result ≡ slice_index_or own.now place 0 }
{
    match own.get(place) {
        Some(value) => *value,
        None => 0,
    }
}

/// The value of a kind of value with which an object begins that has these values: one for each kind of value of its kind.
#[tactic(auto, unfolding(crate::specs::InPlay::start_value))]
fn start_value(tables: &Tables, number: usize, entry: &Entry, own: &[u8]) -> u8
    ensures { result ≡ start_value tables.now number entry.now own.now }
{
    let parents = tables.world.kinds.as_slice();
    let values = tables.values.kinds.as_slice();
    let kind = KindNo::new(entry.kind);
    if kind_has(parents, values, kind, number) {
        value_at(own, count_before(parents, values, kind, number))
    } else {
        0
    }
}

fn first_own(all: &[Listed<u8>]) -> &[u8]
    ensures { result.now ≡ first_own all.now }
{
    match all {
        [own, ..] => own.as_slice(),
        [] => &[],
    }
}

/// Those behind the first.
fn behind_first(all: &[Listed<u8>]) -> &[Listed<u8>]
    ensures { result.now ≡ drop 1 all.now }
{
    match all {
        [_, others @ ..] => others,
        [] => all,
    }
}

/// Of each object, by number, the value of a kind of value with which it begins.
#[tactic(auto, using(object_words::proofs::Folds::one_behind))]
fn start_values(alloc: Global, tables: &Tables, number: usize) -> Result<Vec<u8>, AllocError>
    ensures { IfOk result (λ values. values.items ≡ start_values tables.now number) }
{
    let mut values = Vec::new(alloc);
    let mut all = tables.values.objects.as_slice();
    let mut rest = tables.objects.as_slice();
    while let [entry, after @ ..] = rest {
        values.push(start_value(tables, number, entry, first_own(all)))?;
        all = behind_first(all);
        rest = after;
    }
    Ok(values)
}

impl Story {
    /// How many kinds of value there are.
    #[tactic(auto, using(crate::proofs::ValueLemmas::few_value_kinds))]
    pub fn value_kind_count(&self) -> usize
        ensures count { result ≡ length self.now.values.kinds }
        ensures few { result ≤ 100 }
    {
        self.tables().values.kinds.as_slice().len()
    }

    /// Whether an object's kind has a value of the kind of value of a number.
    pub fn has_value(&self, object: ObjNo, kind: usize) -> bool
        ensures { result ≡ has_value self.now object kind }
    {
        let tables = self.tables();
        match tables.objects.as_slice().get(usize::from(object.get())) {
            Some(entry) => kind_has(
                tables.world.kinds.as_slice(),
                tables.values.kinds.as_slice(),
                KindNo::new(entry.kind),
                kind,
            ),
            None => false,
        }
    }

    /// The numbers of the names of the values of a kind of value.
    fn value_names(&self, kind: usize) -> &[u16]
        ensures { map (text_at self.now.strings) result.now ≡ value_names self.now kind }
    {
        match self.tables().values.kinds.as_slice().get(kind) {
            Some(entry) => entry.names.as_slice(),
            None => &[],
        }
    }

    /// How many values a kind of value has; none where there is no such kind.
    pub fn value_count(&self, kind: usize) -> usize
        ensures count { result ≡ length (value_names self.now kind) }
        ensures few { result ≤ 100 }
    {
        let _ = self.tables();
        self.value_names(kind).len()
    }

    /// The name of a value of a kind of value, by their numbers; no bytes where there is none.
    pub fn value_name(&self, kind: usize, value: usize) -> &[u8]
        ensures { result.now ≡ slice_index_or (value_names self.now kind) value [] }
    {
        match self.value_names(kind).get(value) {
            Some(number) => self.string(*number),
            None => &[],
        }
    }

    /// Of each object, by number, the value of a kind of value with which it begins; 0 where its kind has none of them.
    pub fn values(&self, alloc: Global, kind: usize) -> Result<Vec<u8>, AllocError>
        ensures { IfOk result (λ values. values.items ≡ start_values self.now kind) }
    {
        start_values(alloc, self.tables(), kind)
    }
}
