//! What a phrase is as a line of a rule's body.
ghost use Rattle.std.specs.Prelude.{◌≡◌, ◌≤◌, length, IfOk};
ghost use Rattle.i7_conditions.specs.Readings.{IsFoundAs};
ghost use Rattle.i7_conditions.specs.Scopes.{scope_of};
ghost use Rattle.i7_phrases.specs.ChangeForms.{found_simple};
ghost use Rattle.i7_rules.specs.Knowns.{known_of, nearest};
ghost use Rattle.i7_rules.specs.Lines.{IsDone, States, StatesAmong, done_by, found_stated, is_beyond, is_ninth, is_over, is_over_among, limited, says_long};

use crate::doing::doing_of;
use crate::known::Known;
use i7_conditions::{Found, Scope, Step};
use i7_phrases::block_of;
use i7_sentences::{RulePhrase, Spoken};
use play_meaning::tree::Simple;
use std::alloc::{AllocError, Global};
use world_meaning::{MOST_BYTES, TextBytes};

/// The line of a phrase that does this, perhaps with an `instead` behind it.
fn done_by(is_instead: bool, found: Found<Simple>) -> Found<Step>
    ensures { found_stated result ≡ done_by is_instead (found_simple found) }
{
    match found {
        Found::Read(simple) => {
            if is_instead {
                Found::Read(Step::Instead(simple))
            } else {
                Found::Read(Step::Does(simple))
            }
        }
        Found::TooMany => Found::TooMany,
        Found::Unread => Found::Unread,
    }
}

/// The line of a phrase that others don't belong to.
fn done_step(
    alloc: Global,
    known: &Known<'_>,
    scope: &Scope<'_>,
    phrase: &RulePhrase,
) -> Result<Found<Step>, AllocError>
    requires few { length (scope_of scope.now).repeats ≤ 255 }
    ensures { IfOk result (λ found. IsDone (known_of known.now) (scope_of scope.now) phrase.now (found_stated found)) }
{
    let found = doing_of(alloc, known, scope, &phrase.said)?;
    Ok(done_by(phrase.is_instead, found))
}

/// What a phrase is as a line, among these names.
fn step_in(
    alloc: Global,
    known: &Known<'_>,
    scope: &Scope<'_>,
    phrase: &RulePhrase,
) -> Result<Found<Step>, AllocError>
    requires few { length (scope_of scope.now).repeats ≤ 255 }
    ensures { IfOk result (λ found. IsFoundAs (States (known_of known.now) (scope_of scope.now) phrase.now) is_over (found_stated found)) }
{
    match block_of(alloc, scope, &phrase.said)? {
        Some(block) => Ok(block),
        None => done_step(alloc, known, scope, phrase),
    }
}

/// The innermost 255 of names of repeats, the outermost first.
fn nearest(names: &[TextBytes]) -> &[TextBytes]
    ensures names { result.now ≡ nearest names.now }
    ensures few { length result.now ≤ 255 }
{
    let (_, near) = names.split_at(names.len().saturating_sub(255));
    near
}

/// Whether a phrase is a repeat within eight others, of which these are the names.
#[tactic(auto, unfolding(crate::specs::Lines::is_ninth))]
fn is_ninth(names: &[TextBytes], phrase: &RulePhrase) -> bool
    ensures { result ≡ is_ninth names.now phrase.now }
{
    matches!(&phrase.said, Spoken::Repeat { .. }) && names.len() >= 8
}

/// Whether a phrase says a text of more than 65,535 bytes, as it is written.
#[tactic(auto, unfolding(crate::specs::Lines::says_long))]
fn says_long(said: &Spoken) -> bool
    ensures { result ≡ says_long said.now }
{
    match said {
        Spoken::Say { length, .. } => *length > MOST_BYTES,
        Spoken::EndStory(Some(text)) => text.as_slice().len() > MOST_BYTES,
        _ => false,
    }
}

/// Whether a phrase goes beyond a limit, whatever its words mean.
fn is_beyond(names: &[TextBytes], phrase: &RulePhrase) -> bool
    ensures { result ≡ is_beyond names.now phrase.now }
{
    is_ninth(names, phrase) || says_long(&phrase.said)
}

/// What means something is too many where it goes beyond a limit whatever it means.
fn limited(is_over: bool, found: Found<Step>) -> Found<Step>
    ensures { found_stated result ≡ limited is_over (found_stated found) }
{
    match found {
        Found::Read(step) => {
            if is_over {
                Found::TooMany
            } else {
                Found::Read(step)
            }
        }
        Found::TooMany => Found::TooMany,
        Found::Unread => Found::Unread,
    }
}

/// What a phrase is as a line where repeats with these names are open, the outermost first: of more than 255 the innermost are
/// known. It is too many with an object, a description or a condition beyond the limits, as a repeat within eight others, and with a
/// text of more than 65,535 bytes.
pub fn step_of(
    alloc: Global,
    known: &Known<'_>,
    names: &[TextBytes],
    phrase: &RulePhrase,
) -> Result<Found<Step>, AllocError>
    ensures { IfOk result (λ found. IsFoundAs (StatesAmong (known_of known.now) names.now phrase.now) (is_over_among names.now phrase.now) (found_stated found)) }
{
    let scope = Scope {
        names: known.names,
        repeats: nearest(names),
    };
    let found = step_in(alloc, known, &scope, phrase)?;
    Ok(limited(is_beyond(names, phrase), found))
}
