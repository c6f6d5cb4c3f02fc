//! What clauses ask (*Writing with Inform*, 11.7 and 11.8): `not in darkness`, `the box is open`, `the player has the key`.
ghost use Rattle.std.specs.Prelude.{◌≡◌, ◌≤◌, length, option_map, IfOk};
ghost use Rattle.std.specs.List.{position_or_len};
ghost use Rattle.i7_conditions.specs.Asking.{found_clause};
ghost use Rattle.i7_conditions.specs.ClauseForms.{asked_in, clause_said, not_dark};
ghost use Rattle.i7_conditions.specs.Clauses.{Asks, asks_over, behind_not, is_darkness, is_is, split_is};
ghost use Rattle.i7_conditions.specs.Readings.{IsFoundAs};
ghost use Rattle.i7_conditions.specs.Scopes.{scope_of};

use crate::asking::{asked_by, behind_not, clause};
use crate::doing::by_verb;
use crate::found::Found;
use crate::scope::Scope;
use play_meaning::tree::{Basic, Clause};
use std::alloc::{AllocError, Global};
use world_meaning::{TextBytes, is_spelled};

/// Whether the word is `is`.
#[tactic(auto, unfolding(crate::specs::Clauses::is_is))]
fn is_is(word: &TextBytes) -> bool
    ensures { result ≡ is_is word.now }
{
    is_spelled(word.as_slice(), b"is")
}

/// How many words stand in front of the first `is`.
fn before_is(words: &[TextBytes]) -> usize
    ensures place { result ≡ position_or_len is_is words.now }
    ensures within { result ≤ length words.now }
{
    words.iter().take_while(|word| !is_is(*word)).count()
}

/// The words in front of the first `is`, and those behind it.
pub fn split_is(words: &[TextBytes]) -> Option<(&[TextBytes], &[TextBytes])>
    ensures { option_map (λ parts. (parts.0.now, parts.1.now)) result ≡ split_is words.now }
{
    let (front, rest) = words.split_at(before_is(words));
    match rest {
        [] => None,
        [_, behind @ ..] => Some((front, behind)),
    }
}

/// Whether words are `in darkness`.
fn is_darkness(words: &[TextBytes]) -> bool
    ensures { result ≡ is_darkness words.now }
{
    match words {
        [first, second] => {
            is_spelled(first.as_slice(), b"in") && is_spelled(second.as_slice(), b"darkness")
        }
        _ => false,
    }
}

/// `not in darkness`.
fn not_dark(words: &[TextBytes]) -> Found<Clause>
    ensures { found_clause result ≡ not_dark (behind_not words.now) }
{
    match behind_not(words) {
        None => Found::Unread,
        Some(rest) => {
            if is_darkness(rest) {
                Found::Read(Clause {
                    basic: Basic::InDarkness,
                    denied: true,
                })
            } else {
                Found::Unread
            }
        }
    }
}

/// What is asked by an `is`, or by a verb where there is none.
fn asked_in(
    alloc: Global,
    scope: &Scope<'_>,
    words: &[TextBytes],
) -> Result<Found<Clause>, AllocError>
    requires few { length (scope_of scope.now).repeats ≤ 255 }
    ensures { IfOk result (λ found. found_clause found ≡ asked_in (scope_of scope.now) words.now (split_is words.now)) }
{
    match split_is(words) {
        None => {
            let found = by_verb(alloc, scope, words)?;
            Ok(clause(found, false))
        }
        Some((subject, predicate)) => Ok(asked_by(alloc, scope, subject, predicate)?),
    }
}

/// What a clause asks.
#[tactic(auto, unfolding(crate::specs::ClauseForms::clause_said))]
pub fn clause_said(
    alloc: Global,
    scope: &Scope<'_>,
    words: &[TextBytes],
) -> Result<Found<Clause>, AllocError>
    requires few { length (scope_of scope.now).repeats ≤ 255 }
    ensures { IfOk result (λ found. found_clause found ≡ clause_said (scope_of scope.now) words.now) }
{
    if is_darkness(words) {
        return Ok(Found::Read(Clause {
            basic: Basic::InDarkness,
            denied: false,
        }));
    }
    match not_dark(words) {
        Found::Unread => Ok(asked_in(alloc, scope, words)?),
        found => Ok(found),
    }
}

/// What words ask as one clause, without `and` and `or`.
pub fn clause_of(
    alloc: Global,
    scope: &Scope<'_>,
    words: &[TextBytes],
) -> Result<Found<Clause>, AllocError>
    requires few { length (scope_of scope.now).repeats ≤ 255 }
    ensures { IfOk result (λ found. IsFoundAs (Asks (scope_of scope.now) words.now) asks_over (found_clause found)) }
{
    Ok(clause_said(alloc, scope, words)?)
}
