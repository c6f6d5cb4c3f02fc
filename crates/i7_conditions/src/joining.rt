//! Words parted into numbers that `plus`, `minus` and `times` join: a column of parts from the last word to the first, which
//! is followed then. Where no name has an operator as a word, each operator ends a part.
ghost use Rattle.std.specs.Prelude.{ℕ, List, ◌≡◌, ◌+◌, ◌≤◌, [], length, Some, IfOk};
ghost use Rattle.i7_conditions.specs.Joining.{Joint, added_to, and_part, chained, column_of, entry, first_part, follow, found_joints, found_number, is_end, is_read, is_term, joined, joints_of, looked, number_from, number_said, onto, part_by, part_from};
ghost use Rattle.i7_conditions.specs.Operators.{operator_of};
ghost use Rattle.i7_conditions.specs.Scopes.{scope_of};
ghost use Rattle.i7_conditions.specs.TermForms.{found_term, term_said};
ghost use Rattle.i7_conditions.specs.declared.found.Found.{Found};

use crate::found::Found;
use crate::operator::{is_operator, operator_of};
use crate::scope::{Scope, has_operators};
use crate::term::term_said;
use play_meaning::tree::{Joined, Number, Operator, Term};
use std::alloc::{AllocError, Global};
use world_meaning::TextBytes;

/// What the column tells of the words behind an operator, where so many are left.
fn looked(column: &[Option<usize>], left: usize) -> Option<usize>
    ensures { result ≡ looked column.now left }
{
    column.get(left).copied().unwrap_or(None)
}

/// Whether words mean something, perhaps with too much of it.
fn is_read(found: Found<Term>) -> bool
    ensures { result ≡ is_read (found_term found) }
{
    match found {
        Found::Read(_) | Found::TooMany => true,
        Found::Unread => false,
    }
}

/// Whether words are a number that isn't joined of others.
fn is_term(alloc: Global, scope: &Scope<'_>, words: &[TextBytes]) -> Result<bool, AllocError>
    requires few { length (scope_of scope.now).repeats ≤ 255 }
    ensures { IfOk result (λ is. is ≡ is_term (scope_of scope.now) words.now) }
{
    let found = term_said(alloc, scope, words)?;
    Ok(is_read(found))
}

/// Whether so many words in front of an operator are a part, those behind it being a number.
fn is_end(
    alloc: Global,
    scope: &Scope<'_>,
    column: &[Option<usize>],
    words: &[TextBytes],
    count: usize,
    rest: &[TextBytes],
) -> Result<bool, AllocError>
    requires few { length (scope_of scope.now).repeats ≤ 255 }
    requires within { count ≤ length words.now }
    ensures { IfOk result (λ is. is ≡ is_end (scope_of scope.now) column.now words.now count rest.now) }
{
    if looked(column, rest.len()).is_none() {
        return Ok(false);
    }
    let (part, _) = words.split_at(count);
    Ok(is_term(alloc, scope, part)?)
}

/// The shortest part in front of an operator behind which there is a number.
fn part_from(
    alloc: Global,
    scope: &Scope<'_>,
    column: &[Option<usize>],
    words: &[TextBytes],
) -> Result<Option<usize>, AllocError>
    requires few { length (scope_of scope.now).repeats ≤ 255 }
    ensures { IfOk result (λ count. count ≡ part_from (scope_of scope.now) column.now words.now 0 words.now) }
{
    let mut count = 0;
    let mut rest = words;
    while let [word, after @ ..] = rest {
        if is_operator(word.as_slice()) {
            if is_end(alloc, scope, column, words, count, after)? {
                return Ok(Some(count));
            }
            if !has_operators(scope) {
                return Ok(None);
            }
        }
        count += 1;
        rest = after;
    }
    Ok(None)
}

/// Of how many words the first part is: of all, if they are one.
fn first_part(
    alloc: Global,
    scope: &Scope<'_>,
    column: &[Option<usize>],
    words: &[TextBytes],
) -> Result<Option<usize>, AllocError>
    requires few { length (scope_of scope.now).repeats ≤ 255 }
    ensures { IfOk result (λ count. count ≡ first_part (scope_of scope.now) column.now words.now) }
{
    if is_term(alloc, scope, words)? {
        Ok(Some(words.len()))
    } else {
        Ok(part_from(alloc, scope, column, words)?)
    }
}

/// What the column tells of a word with these words behind it.
fn entry(
    alloc: Global,
    scope: &Scope<'_>,
    column: &[Option<usize>],
    rest: &[TextBytes],
) -> Result<Option<usize>, AllocError>
    requires few { length (scope_of scope.now).repeats ≤ 255 }
    ensures { IfOk result (λ count. count ≡ entry (scope_of scope.now) column.now rest.now) }
{
    match rest {
        [] => Ok(None),
        [word, behind @ ..] => {
            if is_operator(word.as_slice()) {
                Ok(first_part(alloc, scope, column, behind)?)
            } else {
                Ok(None)
            }
        }
    }
}

/// Of each operator, of how many words the first part behind it is.
fn column_of(
    alloc: Global,
    scope: &Scope<'_>,
    words: &[TextBytes],
) -> Result<Vec<Option<usize>>, AllocError>
    requires few { length (scope_of scope.now).repeats ≤ 255 }
    ensures { IfOk result (λ column. column.items ≡ column_of (scope_of scope.now) words.now) }
{
    let mut column = Vec::new(alloc);
    let mut place = words.len();
    while place > 0 {
        place -= 1;
        let (_, rest) = words.split_at(place);
        let count = entry(alloc, scope, column.as_slice(), rest)?;
        column.push(count)?;
    }
    Ok(column)
}

/// The operator that a word is, and of how many words the part behind it is.
fn part_by(operator: Option<Operator>, count: Option<usize>) -> Option<(Operator, usize)>
    ensures { result ≡ part_by operator count }
{
    match operator {
        None => None,
        Some(operator) => match count {
            None => None,
            Some(count) => Some((operator, count)),
        },
    }
}

/// Adds a part behind its operator, and says of how many words it is.
fn add_joined(
    operator: Operator,
    count: usize,
    found: Found<Term>,
    parts: &mut Vec<Joined>,
) -> Result<Found<usize>, AllocError>
    ensures { IfOk result (λ added. (next : ℕ → Found (List Joint)) →
        onto (joints_of parts.old.items) (joined operator (found_term found) (next count)) ≡ added_to added (joints_of parts.new.items) next) }
{
    match found {
        Found::Read(term) => {
            parts.push(Joined { operator, term })?;
            Ok(Found::Read(count))
        }
        Found::TooMany => Ok(Found::TooMany),
        Found::Unread => Ok(Found::Unread),
    }
}

/// Adds the part with which words begin, and says of how many words it is.
fn add_part(
    alloc: Global,
    scope: &Scope<'_>,
    part: Option<(Operator, usize)>,
    words: &[TextBytes],
    parts: &mut Vec<Joined>,
) -> Result<Found<usize>, AllocError>
    requires few { length (scope_of scope.now).repeats ≤ 255 }
    ensures { IfOk result (λ added. (next : ℕ → Found (List Joint)) →
        onto (joints_of parts.old.items) (and_part (scope_of scope.now) part words.now next) ≡ added_to added (joints_of parts.new.items) next) }
{
    match part {
        None => Ok(Found::Unread),
        Some((operator, count)) => {
            let (front, _) = words.split_at(count.min(words.len()));
            let found = term_said(alloc, scope, front)?;
            Ok(add_joined(operator, count, found, parts)?)
        }
    }
}

/// The operators and the parts behind them, where so many words are passed over first.
fn follow(
    alloc: Global,
    scope: &Scope<'_>,
    column: &[Option<usize>],
    first: usize,
    words: &[TextBytes],
) -> Result<Found<Vec<Joined>>, AllocError>
    requires few { length (scope_of scope.now).repeats ≤ 255 }
    ensures { IfOk result (λ found. found_joints found ≡ follow (scope_of scope.now) column.now first words.now) }
{
    let mut parts = Vec::new(alloc);
    let mut left = first;
    let mut rest = words;
    while let [word, after @ ..] = rest {
        if left > 0 {
            left -= 1;
        } else {
            let part = part_by(operator_of(word.as_slice()), looked(column, after.len()));
            match add_part(alloc, scope, part, after, &mut parts)? {
                Found::Read(count) => left = count,
                Found::TooMany => return Ok(Found::TooMany),
                Found::Unread => return Ok(Found::Unread),
            }
        }
        rest = after;
    }
    Ok(Found::Read(parts))
}

/// A number and those that are joined to it.
fn chained(first: Found<Term>, rest: Found<Vec<Joined>>) -> Found<Number>
    ensures { found_number result ≡ chained (found_term first) (found_joints rest) }
{
    match first {
        Found::Read(first) => match rest {
            Found::Read(rest) => Found::Read(Number { first, rest }),
            Found::TooMany => Found::TooMany,
            Found::Unread => Found::Unread,
        },
        Found::TooMany => Found::TooMany,
        Found::Unread => Found::Unread,
    }
}

/// The number that words are, the first part being of so many words.
fn number_from(
    alloc: Global,
    scope: &Scope<'_>,
    column: &[Option<usize>],
    count: Option<usize>,
    words: &[TextBytes],
) -> Result<Found<Number>, AllocError>
    requires few { length (scope_of scope.now).repeats ≤ 255 }
    ensures { IfOk result (λ found. found_number found ≡ number_from (scope_of scope.now) column.now count words.now) }
{
    match count {
        None => Ok(Found::Unread),
        Some(count) => {
            let (front, _) = words.split_at(count.min(words.len()));
            let first = term_said(alloc, scope, front)?;
            let rest = follow(alloc, scope, column, count, words)?;
            Ok(chained(first, rest))
        }
    }
}

/// The number that words are.
#[tactic(auto, unfolding(crate::specs::Joining::number_said))]
pub fn number_said(
    alloc: Global,
    scope: &Scope<'_>,
    words: &[TextBytes],
) -> Result<Found<Number>, AllocError>
    requires few { length (scope_of scope.now).repeats ≤ 255 }
    ensures { IfOk result (λ found. found_number found ≡ number_said (scope_of scope.now) words.now) }
{
    let column = column_of(alloc, scope, words)?;
    let count = first_part(alloc, scope, column.as_slice(), words)?;
    number_from(alloc, scope, column.as_slice(), count, words)
}
