//! How many there are of what codes and rules name.
ghost use Rattle.std.specs.Prelude.{◌≡◌};
ghost use Rattle.std.specs.List.{slice_set};
ghost use Rattle.story_format.specs.Counts.{counts_of, name_count, small, value_counts};

use crate::tables::Tables;
use crate::value_tables::ValueEntry;
use play_meaning::Counts;

/// A count as a number of two bytes.
fn small(count: usize) -> u16
    ensures { result ≡ small count }
{
    count.min(65_535) as u16
}

/// How many values a kind of value has, as a number of one byte.
fn name_count(entry: &ValueEntry) -> u8
    ensures { result ≡ name_count entry.now }
{
    entry.names.as_slice().len().min(255) as u8
}

/// Puts a count at a place, if there is one.
fn put(counts: &mut [u8; 100], place: usize, count: u8)
    ensures { counts.new ≡ slice_set counts.old place count }
{
    if place < counts.len() {
        counts[place] = count;
    }
}

/// Of a hundred kinds of value how many values each has; none where there is no such kind.
#[tactic(auto, unfolding(crate::specs::Counts::value_counts))]
fn value_counts(values: &[ValueEntry]) -> [u8; 100]
    ensures { result ≡ value_counts values.now }
{
    let mut counts = [0u8; 100];
    let mut place = 0usize;
    let mut rest = values;
    while let [entry, after @ ..] = rest {
        put(&mut counts, place, name_count(entry));
        place += 1;
        rest = after;
    }
    counts
}

/// How many there are of what codes name.
#[tactic(auto, unfolding(crate::specs::Counts::counts_of))]
pub fn counts_of(tables: &Tables) -> Counts
    ensures { result ≡ counts_of tables.now }
{
    Counts {
        objects: small(tables.objects.as_slice().len()),
        kinds: small(tables.world.kinds.as_slice().len()),
        flags: small(tables.world.flags.as_slice().len()),
        numbers: small(tables.world.numbers.as_slice().len()),
        variables: small(tables.world.variables.as_slice().len()),
        scenes: small(tables.rules.scenes.as_slice().len()),
        strings: small(tables.strings.as_slice().len()),
        codes: small(tables.codes.as_slice().len()),
        actions: small(tables.rules.actions.as_slice().len()),
        books: small(tables.rules.books.as_slice().len()),
        values: value_counts(tables.values.kinds.as_slice()),
        own: 0,
    }
}
