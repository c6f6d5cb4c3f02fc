//! The words in front of a description's relation: adjectives, and then a kind. Of `closed dark room` they are `closed` and
//! the kind `dark room`, if there is one, else `closed`, `dark` and `room`.
ghost use Rattle.std.specs.Prelude.{◌≡◌, ◌+◌, ◌≤◌, [], ◌∷◌, ◌++◌, length, IfOk, OnOk};
ghost use Rattle.i7_conditions.specs.Fronts.{adjective_at, can_go, column_of, follow, front_said, goes, looked, step_at, stops_with, IsToldBy, window_of};
ghost use Rattle.i7_conditions.specs.Scopes.{scope_of};

use crate::adjective::{adjective_named, kind_named};
use crate::plain::MOST_WORDS;
use crate::scope::Scope;
use play_meaning::tree::Adjective;
use std::alloc::{AllocError, Global};
use world_meaning::{KindNo, Listed, TextBytes};

/// Adjectives, and the kind behind them.
#[derive(Drop)]
pub struct Front {
    pub adjectives: Listed<Adjective>,
    pub kind: KindNo,
}

/// What words are cut into first.
#[derive(Clone, Copy, Debug)]
pub enum Step {
    /// They can't be cut.
    Stops,
    /// All of them name a kind.
    Ends(KindNo),
    /// An adjective of so many words.
    Goes(Adjective, usize),
}

/// Whether words with this step can be cut.
fn can_go(step: Step) -> bool
    ensures { result ≡ can_go step }
{
    match step {
        Step::Stops => false,
        Step::Ends(_) | Step::Goes(_, _) => true,
    }
}

/// What the last words are cut into first, where so many are left.
fn looked(column: &[Step], left: usize) -> Step
    ensures { result ≡ looked column.now left }
{
    column.get(left).copied().unwrap_or(Step::Stops)
}

/// The adjective that so many words in front are, if the rest can be cut.
fn goes_at(
    alloc: Global,
    scope: &Scope<'_>,
    column: &[Step],
    words: &[TextBytes],
    count: usize,
) -> Result<Option<Adjective>, AllocError>
    requires within { count ≤ length words.now }
    ensures { IfOk result (λ adjective. adjective ≡ adjective_at (scope_of scope.now) words.now column.now count) }
{
    let (front, behind) = words.split_at(count);
    if can_go(looked(column, behind.len())) {
        adjective_named(alloc, scope, front)
    } else {
        Ok(None)
    }
}

/// The shortest adjective in front behind which the rest can be cut.
fn goes(
    alloc: Global,
    scope: &Scope<'_>,
    column: &[Step],
    words: &[TextBytes],
) -> Result<Step, AllocError>
    ensures { IfOk result (λ step. step ≡ goes (scope_of scope.now) words.now column.now 1 (window_of words.now)) }
{
    let (window, _) = words.split_at(words.len().min(MOST_WORDS + 1));
    let mut count = 1;
    let mut rest = window;
    while let [_, after @ ..] = rest {
        if let Some(adjective) = goes_at(alloc, scope, column, words, count)? {
            return Ok(Step::Goes(adjective, count));
        }
        count += 1;
        rest = after;
    }
    Ok(Step::Stops)
}

/// What words are cut into first, by the column for their ends.
fn step_at(
    alloc: Global,
    scope: &Scope<'_>,
    column: &[Step],
    words: &[TextBytes],
) -> Result<Step, AllocError>
    ensures { IfOk result (λ step. step ≡ step_at (scope_of scope.now) words.now column.now) }
{
    match kind_named(alloc, scope, words)? {
        Some(kind) => Ok(Step::Ends(kind)),
        None => goes(alloc, scope, column, words),
    }
}

/// Adds a step to a column, and tells how many of its last steps stop.
fn add_step(column: &mut Vec<Step>, stops: usize, step: Step) -> Result<usize, AllocError>
    requires few { stops ≤ 32 }
    ensures column { OnOk result (column.new.items ≡ column.old.items ++ step ∷ []) }
    ensures stops { IfOk result (λ now. now ≡ stops_with stops step) }
{
    let now = match step {
        Step::Stops => stops + 1,
        Step::Ends(_) | Step::Goes(_, _) => 0,
    };
    column.push(step)?;
    Ok(now)
}

/// Of each count of last words, what they are cut into first. Where as many counts as a name and its `not` may have can't be
/// cut, no more can, and the column ends there.
fn column_of(alloc: Global, scope: &Scope<'_>, words: &[TextBytes]) -> Result<Vec<Step>, AllocError>
    ensures { IfOk result (λ column. IsToldBy column.items (column_of (scope_of scope.now) words.now)) }
{
    let mut column = Vec::new(alloc);
    column.push(Step::Stops)?;
    let mut stops = 1usize;
    let mut place = words.len();
    while place > 0 && stops <= MOST_WORDS {
        place -= 1;
        let (_, rest) = words.split_at(place);
        let step = step_at(alloc, scope, column.as_slice(), rest)?;
        stops = add_step(&mut column, stops, step)?;
    }
    Ok(column)
}

/// What words are cut into, by the column that tells it.
fn follow(alloc: Global, column: &[Step], words: &[TextBytes]) -> Result<Option<Front>, AllocError>
    ensures { IfOk result (λ front. front ≡ follow column.now 0 [] words.now) }
{
    let mut adjectives = Vec::new(alloc);
    let mut skipped = 0usize;
    let mut rest = words;
    while let [_, after @ ..] = rest {
        if skipped > 0 {
            skipped -= 1;
        } else {
            match looked(column, rest.len()) {
                Step::Stops => return Ok(None),
                Step::Ends(kind) => {
                    let adjectives = Listed::new(adjectives);
                    return Ok(Some(Front { adjectives, kind }));
                }
                Step::Goes(adjective, count) => {
                    adjectives.push(adjective)?;
                    skipped = count.saturating_sub(1);
                }
            }
        }
        rest = after;
    }
    Ok(None)
}

/// The adjectives and the kind that words are, if they can be cut into these.
#[tactic(auto, using(crate::proofs::Stopped::front_told), unfolding(crate::specs::Fronts::front_said))]
pub fn front_of(
    alloc: Global,
    scope: &Scope<'_>,
    words: &[TextBytes],
) -> Result<Option<Front>, AllocError>
    ensures { IfOk result (λ front. front ≡ front_said (scope_of scope.now) words.now) }
{
    let column = column_of(alloc, scope, words)?;
    follow(alloc, column.as_slice(), words)
}
