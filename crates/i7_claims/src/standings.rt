//! What names stand for, and the names that stand for two things.
ghost use Rattle.std.specs.Prelude.{◌≡◌, IfOk, OnOk, None, fold, option_copied};
ghost use Rattle.i7_claims.specs.NameScans.{IsShort, book_twice, clashes, is_book_twice, is_listed_twice, is_twice, longer, longer_claim, longer_fact, name_twice, no_standings, shows_twice, standing_at, list_twice, with_book, with_claim, with_fact, with_list, with_naming};
ghost use Rattle.i7_claims.specs.Scans.{lowest};
ghost use Rattle.i7_claims.specs.Standings.{built_in_namings, is_second_of, suits, suits_first, suits_second};

use crate::built_in::built_in_books;
use crate::claim::{Claim, Fact, Naming, Standing};
use crate::scans::lower;
use indexmap::IndexMap;
use object_words::Strings;
use std::alloc::{AllocError, Global};
use world_meaning::TextBytes;

/// What each name stands for so far.
pub type Known<'a> = IndexMap<&'a [u8], &'a Standing>;

/// Whether a property's second name may be said of one with these names.
fn suits_second(known: &Option<TextBytes>, said: &Option<TextBytes>) -> bool
    ensures { result ≡ suits_second known.now said.now }
{
    match said {
        None => true,
        Some(second) => match known {
            None => false,
            Some(other) => other.as_slice() == second.as_slice(),
        },
    }
}

fn suits_first(known: &Standing, second: &Option<TextBytes>) -> bool
    ensures { result ≡ suits_first known.now second.now }
{
    match known {
        Standing::First(other) => suits_second(other, second),
        _ => false,
    }
}

fn is_second_of(known: &Standing, first: &TextBytes) -> bool
    ensures { result ≡ is_second_of known.now first.now }
{
    match known {
        Standing::Second(other) => other.as_slice() == first.as_slice(),
        _ => false,
    }
}

/// Whether a name that stands for the one may be claimed again as the other.
fn suits(known: &Standing, said: &Standing) -> bool
    ensures { result ≡ suits known.now said.now }
{
    match said {
        Standing::First(second) => suits_first(known, second),
        Standing::Second(first) => is_second_of(known, first),
        Standing::Number => matches!(known, Standing::Number),
        Standing::Object => matches!(known, Standing::Object),
        _ => false,
    }
}

fn clashes(known: Option<&Standing>, said: &Standing) -> bool
    ensures { result ≡ clashes (option_copied known.entry) said.now }
{
    match known {
        None => false,
        Some(known) => !suits(known, said),
    }
}

/// What a name stands for so far.
pub fn standing_of<'a>(known: &Known<'a>, name: &[u8]) -> Option<&'a Standing>
    ensures { option_copied result ≡ standing_at known.now name.now }
{
    known.get(name).copied()
}

/// Whether the name of a fact stands for something else.
fn is_twice(known: &Known<'_>, fact: &Fact) -> bool
    ensures { result ≡ is_twice (standing_at known.now) fact.now }
{
    match fact {
        Fact::Stands(naming) => {
            clashes(standing_of(known, naming.name.as_slice()), &naming.standing)
        }
        _ => false,
    }
}

/// Keeps what a name stands for, unless something is known of it.
fn keep<'a>(known: &mut Known<'a>, naming: &'a Naming) -> Result<(), AllocError>
    ensures { OnOk result (standing_at known.new ≡ with_naming (standing_at known.old) naming.now) }
{
    let name = naming.name.as_slice();
    if known.get(name).is_none() {
        known.insert(name, &naming.standing)?;
    }
    Ok(())
}

fn keep_all<'a>(known: &mut Known<'a>, namings: &'a [Naming]) -> Result<(), AllocError>
    ensures { OnOk result (standing_at known.new ≡ fold with_naming (standing_at known.old) namings.now) }
{
    let mut rest = namings;
    while let [naming, after @ ..] = rest {
        keep(known, naming)?;
        rest = after;
    }
    Ok(())
}

fn keep_fact<'a>(known: &mut Known<'a>, fact: &'a Fact) -> Result<(), AllocError>
    ensures { OnOk result (standing_at known.new ≡ with_fact (standing_at known.old) fact.now) }
{
    match fact {
        Fact::Stands(naming) => keep(known, naming),
        _ => Ok(()),
    }
}

fn keep_facts<'a>(known: &mut Known<'a>, claims: &'a [Claim]) -> Result<(), AllocError>
    ensures { OnOk result (standing_at known.new ≡ fold with_claim (standing_at known.old) claims.now) }
{
    let mut rest = claims;
    while let [claim, after @ ..] = rest {
        keep_fact(known, &claim.fact)?;
        rest = after;
    }
    Ok(())
}

fn longer(most: usize, naming: &Naming) -> usize
    ensures { result ≡ longer most naming.now }
{
    most.max(naming.name.as_slice().len())
}

fn longest_naming(most: usize, namings: &[Naming]) -> usize
    ensures { result ≡ fold longer most namings.now }
{
    let mut longest = most;
    let mut rest = namings;
    while let [naming, after @ ..] = rest {
        longest = longer(longest, naming);
        rest = after;
    }
    longest
}

fn longer_fact(most: usize, fact: &Fact) -> usize
    ensures { result ≡ longer_fact most fact.now }
{
    match fact {
        Fact::Stands(naming) => longer(most, naming),
        _ => most,
    }
}

fn longest_claim(most: usize, claims: &[Claim]) -> usize
    ensures { result ≡ fold longer_claim most claims.now }
{
    let mut longest = most;
    let mut rest = claims;
    while let [claim, after @ ..] = rest {
        longest = longer_fact(longest, &claim.fact);
        rest = after;
    }
    longest
}

/// The most bytes of a name that stands for something by the namings or by the claims.
#[tactic(auto, using(crate::proofs::Lengths::names_are_short))]
pub fn longest_name(namings: &[Naming], claims: &[Claim]) -> usize
    ensures { IsShort result (fold with_claim (fold with_naming no_standings namings.now) claims.now) }
{
    longest_claim(longest_naming(0, namings), claims)
}

/// What each name stands for by the namings, and then by the claims.
pub fn known_after<'a>(
    alloc: Global,
    namings: &'a [Naming],
    claims: &'a [Claim],
) -> Result<Known<'a>, AllocError>
    ensures { IfOk result (λ known. standing_at known ≡ fold with_claim (fold with_naming no_standings namings.now) claims.now) }
{
    let mut known = IndexMap::new(alloc);
    keep_all(&mut known, namings)?;
    keep_facts(&mut known, claims)?;
    Ok(known)
}

/// The lowest line of a name that stands for something else, by what is known before the claims.
fn twice_after<'a>(known: &mut Known<'a>, claims: &'a [Claim]) -> Result<Option<u32>, AllocError>
    ensures { IfOk result (λ found. found ≡ lowest shows_twice with_claim (standing_at known.old) claims.now None) }
{
    let mut found = None;
    let mut rest = claims;
    while let [claim, after @ ..] = rest {
        found = lower(is_twice(known, &claim.fact), claim.line, found);
        keep_fact(known, &claim.fact)?;
        rest = after;
    }
    Ok(found)
}

/// The lowest line of a name that stands for something else, where names stand for this before any sentence.
#[tactic(auto, unfolding(crate::specs::NameScans::built_in_standings))]
pub fn name_twice(
    alloc: Global,
    built_in: &[Naming],
    claims: &[Claim],
) -> Result<Option<u32>, AllocError>
    requires { built_in.now ≡ built_in_namings }
    ensures { IfOk result (λ found. found ≡ name_twice claims.now) }
{
    let mut known = IndexMap::new(alloc);
    keep_all(&mut known, built_in)?;
    let found = twice_after(&mut known, claims)?;
    Ok(found)
}

fn is_book_twice(books: &Strings, fact: &Fact) -> bool
    ensures { result ≡ is_book_twice books.now fact.now }
{
    match fact {
        Fact::Rulebook(name) => books.contains(name.as_slice()),
        _ => false,
    }
}

fn keep_book(alloc: Global, books: &mut Strings, fact: &Fact) -> Result<(), AllocError>
    ensures { OnOk result (books.new ≡ with_book books.old fact.now) }
{
    match fact {
        Fact::Rulebook(name) => books.mention(alloc, name.as_slice()),
        _ => Ok(()),
    }
}

/// The lowest line of a rulebook whose name is another's.
pub fn book_twice(alloc: Global, claims: &[Claim]) -> Result<Option<u32>, AllocError>
    ensures { IfOk result (λ found. found ≡ book_twice claims.now) }
{
    let mut books = built_in_books(alloc)?;
    let mut found = None;
    let mut rest = claims;
    while let [claim, after @ ..] = rest {
        found = lower(is_book_twice(&books, &claim.fact), claim.line, found);
        keep_book(alloc, &mut books, &claim.fact)?;
        rest = after;
    }
    Ok(found)
}

fn is_listed_twice(kinds: &Strings, fact: &Fact) -> bool
    ensures { result ≡ is_listed_twice kinds.now fact.now }
{
    match fact {
        Fact::Values(listing) => kinds.contains(listing.kind.as_slice()),
        _ => false,
    }
}

fn keep_list(alloc: Global, kinds: &mut Strings, fact: &Fact) -> Result<(), AllocError>
    ensures { OnOk result (kinds.new ≡ with_list kinds.old fact.now) }
{
    match fact {
        Fact::Values(listing) => kinds.mention(alloc, listing.kind.as_slice()),
        _ => Ok(()),
    }
}

/// The lowest line at which the values of a kind of value are listed again.
pub fn list_twice(alloc: Global, claims: &[Claim]) -> Result<Option<u32>, AllocError>
    ensures { IfOk result (λ found. found ≡ list_twice claims.now) }
{
    let mut kinds = Strings::new(alloc);
    let mut found = None;
    let mut rest = claims;
    while let [claim, after @ ..] = rest {
        found = lower(is_listed_twice(&kinds, &claim.fact), claim.line, found);
        keep_list(alloc, &mut kinds, &claim.fact)?;
        rest = after;
    }
    Ok(found)
}
