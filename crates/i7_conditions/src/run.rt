//! Words that name an object as openings and names, in their order: of `the room north from the Hall` they are an opening,
//! `north` and `the Hall`.
ghost use Rattle.std.specs.Prelude.{◌≡◌, ◌≤◌, ◌++◌, length, option_map, IfOk, OnOk};
ghost use Rattle.i7_conditions.specs.Marks.{has_from, mark_named, marks_beyond, marks_in, marks_of, names_nothing, opened, opening, run_marks, split_opening};
ghost use Rattle.i7_conditions.specs.Scopes.{scope_of};

use crate::joint::{Joint, cut};
use crate::mark::Mark;
use crate::plain::{MOST_WORDS, plainly_named};
use crate::scope::Scope;
use crate::word::{begins_beyond, beyond_of, is_from, without_article};
use std::alloc::{AllocError, Global};
use world_meaning::{TextBytes, is_article};

/// What a word is where no name begins: an opening, an article in front of one, or neither.
fn opening(word: &TextBytes, after: &[TextBytes]) -> Option<Option<Mark>>
    ensures { result ≡ opening word.now after.now }
{
    match beyond_of(word) {
        Some(way) => Some(Some(way)),
        None => {
            if is_article(word.as_slice()) && begins_beyond(after) {
                Some(None)
            } else {
                None
            }
        }
    }
}

/// Adds an opening, if there is one.
fn add_opening(way: Option<Mark>, marks: &mut Vec<Mark>) -> Result<(), AllocError>
    ensures { OnOk result (marks.new.items ≡ marks.old.items ++ opened way) }
{
    if let Some(way) = way {
        marks.push(way)?;
    }
    Ok(())
}

/// Adds the marks of a run of words without `from`: a name goes before what opens.
fn add_run(
    alloc: Global,
    scope: &Scope<'_>,
    run: &[TextBytes],
    marks: &mut Vec<Mark>,
) -> Result<(), AllocError>
    requires few { length (scope_of scope.now).repeats ≤ 255 }
    ensures { OnOk result (marks.new.items ≡ marks.old.items ++ run_marks (scope_of scope.now) run.now) }
{
    let mut rest = run;
    while let [word, after @ ..] = rest {
        if let Some(mark) = plainly_named(alloc, scope, rest)? {
            marks.push(mark)?;
            return Ok(());
        }
        match opening(word, after) {
            None => {
                marks.push(Mark::Unknown)?;
                return Ok(());
            }
            Some(way) => add_opening(way, marks)?,
        }
        rest = after;
    }
    marks.push(Mark::Unknown)?;
    Ok(())
}

/// Adds the marks of runs that are parted by `from`.
fn add_runs(
    alloc: Global,
    scope: &Scope<'_>,
    words: &[TextBytes],
    marks: &mut Vec<Mark>,
) -> Result<(), AllocError>
    requires few { length (scope_of scope.now).repeats ≤ 255 }
    ensures { OnOk result (marks.new.items ≡ marks.old.items ++ marks_in (scope_of scope.now) words.now) }
{
    let (first, mut behind) = cut(Joint::From, words);
    add_run(alloc, scope, first, marks)?;
    while let Some(rest) = behind {
        let (run, after) = cut(Joint::From, rest);
        add_run(alloc, scope, run, marks)?;
        behind = after;
    }
    Ok(())
}

/// The words behind the opening at the front of words that hold a `from`, and what it opens.
fn split_opening(words: &[TextBytes]) -> Option<(Mark, &[TextBytes])>
    ensures { option_map (λ parts. (parts.0, parts.1.now)) result ≡ split_opening words.now }
{
    match without_article(words) {
        [] => None,
        [word, rest @ ..] => match beyond_of(word) {
            None => None,
            Some(way) => Some((way, rest)),
        },
    }
}

/// Whether `from` is among the words.
pub fn has_from(words: &[TextBytes]) -> bool
    ensures { result ≡ has_from words.now }
{
    words.iter().any(|word| is_from(word))
}

/// What words without `from` name.
fn mark_named(found: Option<Mark>) -> Mark
    ensures { result ≡ mark_named found }
{
    match found {
        None => Mark::Unknown,
        Some(mark) => mark,
    }
}

/// Adds the marks of words that hold a `from`: these must begin with an opening.
fn add_beyond(
    alloc: Global,
    scope: &Scope<'_>,
    words: &[TextBytes],
    marks: &mut Vec<Mark>,
) -> Result<(), AllocError>
    requires few { length (scope_of scope.now).repeats ≤ 255 }
    ensures { OnOk result (marks.new.items ≡ marks.old.items ++ marks_beyond (scope_of scope.now) words.now) }
{
    match split_opening(words) {
        None => {
            marks.push(Mark::Unknown)?;
            Ok(())
        }
        Some((way, rest)) => {
            marks.push(way)?;
            add_runs(alloc, scope, rest, marks)
        }
    }
}

/// Whether words are too many for a name and open nothing.
fn names_nothing(words: &[TextBytes]) -> bool
    ensures { result ≡ names_nothing words.now }
{
    words.len() > MOST_WORDS + 1 && split_opening(words).is_none()
}

/// The marks of words. Of many that open nothing not all are looked at, since a row of verbs is asked at each of them.
#[tactic(auto, using(crate::proofs::Long::nothing_named))]
pub fn marks_of(
    alloc: Global,
    scope: &Scope<'_>,
    words: &[TextBytes],
) -> Result<Vec<Mark>, AllocError>
    requires few { length (scope_of scope.now).repeats ≤ 255 }
    ensures { IfOk result (λ marks. marks.items ≡ marks_of (scope_of scope.now) words.now) }
{
    let mut marks = Vec::new(alloc);
    if names_nothing(words) {
        marks.push(Mark::Unknown)?;
    } else if has_from(words) {
        add_beyond(alloc, scope, words, &mut marks)?;
    } else {
        let found = plainly_named(alloc, scope, words)?;
        marks.push(mark_named(found))?;
    }
    Ok(marks)
}
