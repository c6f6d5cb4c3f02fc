//! What conditions ask (*Writing with Inform*, 11.8): `the box is open and the ball is in the box or in darkness`.
ghost use Rattle.std.specs.Prelude.{◌≡◌, ◌≤◌, List, length, IfOk};
ghost use Rattle.play_meaning.specs.Trees as tree;
ghost use Rattle.i7_conditions.specs.Asking.{found_clause};
ghost use Rattle.i7_conditions.specs.ClauseForms.{clause_said};
ghost use Rattle.i7_conditions.specs.Clauses.{asks_over};
ghost use Rattle.i7_conditions.specs.Conditions.{IsCondition};
ghost use Rattle.i7_conditions.specs.Conjoining.{condition_said, conjunction_said, found_condition, found_conjunction};
ghost use Rattle.i7_conditions.specs.Readings.{IsFoundAs, two};
ghost use Rattle.i7_conditions.specs.Scopes.{Scope as Names, scope_of};
ghost use Rattle.i7_conditions.specs.Words.{Word};

use crate::clause::clause_said;
use crate::found::Found;
use crate::joint::{Joint, cut};
use crate::scope::Scope;
use play_meaning::tree::{Clause, Condition, Conjunction};
use std::alloc::{AllocError, Global};
use world_meaning::TextBytes;

/// A clause alone.
fn clause_alone(alloc: Global, clause: Found<Clause>) -> Found<Conjunction>
    ensures { found_conjunction result ≡ found_clause clause }
{
    match clause {
        Found::Read(first) => Found::Read(Conjunction {
            first,
            rest: Vec::new(alloc),
        }),
        Found::TooMany => Found::TooMany,
        Found::Unread => Found::Unread,
    }
}

/// Clauses, with one more behind them.
fn with_clause(
    front: Found<Conjunction>,
    clause: Found<Clause>,
) -> Result<Found<Conjunction>, AllocError>
    ensures { IfOk result (λ found. found_conjunction found ≡ two tree.And (found_conjunction front) (found_clause clause)) }
{
    match front {
        Found::Read(mut conjunction) => match clause {
            Found::Read(clause) => {
                conjunction.rest.push(clause)?;
                Ok(Found::Read(conjunction))
            }
            Found::TooMany => Ok(Found::TooMany),
            Found::Unread => Ok(Found::Unread),
        },
        Found::TooMany => match clause {
            Found::Read(_) | Found::TooMany => Ok(Found::TooMany),
            Found::Unread => Ok(Found::Unread),
        },
        Found::Unread => Ok(Found::Unread),
    }
}

/// Clauses, with the one behind them that words are.
fn and_said(
    alloc: Global,
    scope: &Scope<'_>,
    front: Found<Conjunction>,
    part: &[TextBytes],
) -> Result<Found<Conjunction>, AllocError>
    requires few { length (scope_of scope.now).repeats ≤ 255 }
    ensures { IfOk result (λ found. found_conjunction found ≡ two tree.And (found_conjunction front) (clause_said (scope_of scope.now) part.now)) }
{
    match clause_said(alloc, scope, part) {
        Ok(clause) => with_clause(front, clause),
        Err(refused) => {
            drop(front);
            Err(refused)
        }
    }
}

/// What the clauses that words are, joined by `and`, ask together.
#[tactic(auto, unfolding(crate::specs::Conjoining::conjunction_said))]
fn conjunction_said(
    alloc: Global,
    scope: &Scope<'_>,
    words: &[TextBytes],
) -> Result<Found<Conjunction>, AllocError>
    requires few { length (scope_of scope.now).repeats ≤ 255 }
    ensures { IfOk result (λ found. found_conjunction found ≡ conjunction_said (scope_of scope.now) words.now) }
{
    let (first, mut behind) = cut(Joint::And, words);
    let mut all = clause_alone(alloc, clause_said(alloc, scope, first)?);
    while let Some(rest) = behind {
        let (part, after) = cut(Joint::And, rest);
        all = and_said(alloc, scope, all, part)?;
        behind = after;
    }
    Ok(all)
}

/// Clauses that are joined by `and`, alone.
fn conjunction_alone(alloc: Global, conjunction: Found<Conjunction>) -> Found<Condition>
    ensures { found_condition result ≡ found_conjunction conjunction }
{
    match conjunction {
        Found::Read(first) => Found::Read(Condition {
            first,
            rest: Vec::new(alloc),
        }),
        Found::TooMany => Found::TooMany,
        Found::Unread => Found::Unread,
    }
}

/// What `or` joins, with one more behind it.
fn with_conjunction(
    front: Found<Condition>,
    conjunction: Found<Conjunction>,
) -> Result<Found<Condition>, AllocError>
    ensures { IfOk result (λ found. found_condition found ≡ two tree.Or (found_condition front) (found_conjunction conjunction)) }
{
    match front {
        Found::Read(mut condition) => match conjunction {
            Found::Read(conjunction) => {
                condition.rest.push(conjunction)?;
                Ok(Found::Read(condition))
            }
            Found::TooMany => Ok(Found::TooMany),
            Found::Unread => Ok(Found::Unread),
        },
        Found::TooMany => match conjunction {
            Found::Read(conjunction) => {
                drop(conjunction);
                Ok(Found::TooMany)
            }
            Found::TooMany => Ok(Found::TooMany),
            Found::Unread => Ok(Found::Unread),
        },
        Found::Unread => Ok(Found::Unread),
    }
}

/// What `or` joins, with what words behind it ask.
fn or_said(
    alloc: Global,
    scope: &Scope<'_>,
    front: Found<Condition>,
    part: &[TextBytes],
) -> Result<Found<Condition>, AllocError>
    requires few { length (scope_of scope.now).repeats ≤ 255 }
    ensures { IfOk result (λ found. found_condition found ≡ two tree.Or (found_condition front) (conjunction_said (scope_of scope.now) part.now)) }
{
    match conjunction_said(alloc, scope, part) {
        Ok(conjunction) => with_conjunction(front, conjunction),
        Err(refused) => {
            drop(front);
            Err(refused)
        }
    }
}

/// What words ask, their parts being joined by `or`.
#[tactic(auto, unfolding(crate::specs::Conjoining::condition_said))]
pub fn condition_said(
    alloc: Global,
    scope: &Scope<'_>,
    words: &[TextBytes],
) -> Result<Found<Condition>, AllocError>
    requires few { length (scope_of scope.now).repeats ≤ 255 }
    ensures { IfOk result (λ found. found_condition found ≡ condition_said (scope_of scope.now) words.now) }
{
    let (first, mut behind) = cut(Joint::Or, words);
    let mut any = conjunction_alone(alloc, conjunction_said(alloc, scope, first)?);
    while let Some(rest) = behind {
        let (part, after) = cut(Joint::Or, rest);
        any = or_said(alloc, scope, any, part)?;
        behind = after;
    }
    Ok(any)
}

/// What words ask; a condition with an object or a description beyond the limits is too many. `and` binds closer than
/// `or`.
#[tactic(auto, using(crate::proofs::Conjoined::conditions_found))]
pub fn condition_of(
    alloc: Global,
    scope: &Scope<'_>,
    words: &[TextBytes],
) -> Result<Found<Condition>, AllocError>
    requires few { length (scope_of scope.now).repeats ≤ 255 }
    ensures { IfOk result (λ found. IsFoundAs (IsCondition (scope_of scope.now) words.now) asks_over (found_condition found)) }
{
    condition_said(alloc, scope, words)
}

/// Words ask one condition at most.
pub fn one_condition_is_meant()
    ensures { (s : Names) (words : List Word) (c d : tree.Condition) → IsCondition s words c → IsCondition s words d → c ≡ d }
{}
