//! What a phrase does that others don't belong to: `say "Hello."`, `try taking the ball`, `now the box is open`.
ghost use Rattle.std.specs.Prelude.{◌≡◌, ◌≤◌, length, IfOk};
ghost use Rattle.i7_actions.specs.TryingForms.{found_try};
ghost use Rattle.i7_conditions.specs.Readings.{IsFoundAs, one};
ghost use Rattle.i7_conditions.specs.Scopes.{scope_of};
ghost use Rattle.i7_phrases.specs.ChangeForms.{found_simple};
ghost use Rattle.i7_phrases.specs.Limits.{phrase_is_over};
ghost use Rattle.i7_phrases.specs.Phrases.{ending_of};
ghost use Rattle.i7_rules.specs.Doings.{ChangesOrEnds, Does, Follows, TriesSo, following, found_if, trying};
ghost use Rattle.i7_rules.specs.Knowns.{known_of};

use crate::known::Known;
use crate::saying::said_of;
use i7_actions::{Tried, book_of, tried_of};
use i7_conditions::{Found, Scope};
use i7_phrases::{change_of, ending_of};
use i7_sentences::Spoken;
use play_meaning::tree::Simple;
use std::alloc::{AllocError, Global};
use world_meaning::TextBytes;

/// `try`, silently or not, with what is tried.
fn tried_so(is_silent: bool, tried: Found<Tried>) -> Found<Simple>
    ensures { found_simple result ≡ one (trying is_silent) (found_try tried) }
{
    match tried {
        Found::Read(tried) => Found::Read(Simple::Try(
            is_silent,
            tried.action,
            tried.noun,
            tried.second,
        )),
        Found::TooMany => Found::TooMany,
        Found::Unread => Found::Unread,
    }
}

/// `try` with these words.
fn try_of(
    alloc: Global,
    known: &Known<'_>,
    scope: &Scope<'_>,
    is_silent: bool,
    words: &[TextBytes],
) -> Result<Found<Simple>, AllocError>
    requires few { length (scope_of scope.now).repeats ≤ 255 }
    ensures { IfOk result (λ found. IsFoundAs (TriesSo (known_of known.now) (scope_of scope.now) is_silent words.now) phrase_is_over (found_simple found)) }
{
    let tried = tried_of(alloc, scope, known.actions, words)?;
    Ok(tried_so(is_silent, tried))
}

/// `follow` with this rulebook, if it is there.
fn following(book: Option<u16>) -> Found<Simple>
    ensures { found_simple result ≡ following book }
{
    match book {
        None => Found::Unread,
        Some(book) => Found::Read(Simple::Follow(book)),
    }
}

/// `follow` with these words.
fn follow_of(
    alloc: Global,
    known: &Known<'_>,
    words: &[TextBytes],
) -> Result<Found<Simple>, AllocError>
    ensures { IfOk result (λ found. IsFoundAs (Follows (known_of known.now) words.now) phrase_is_over (found_simple found)) }
{
    let book = book_of(alloc, known.actions, known.rulebooks, known.scenes, words)?;
    Ok(following(book))
}

/// What a phrase does that ends a rule or the story.
fn ending_found(alloc: Global, said: &Spoken) -> Result<Found<Simple>, AllocError>
    ensures { IfOk result (λ found. found_simple found ≡ found_if (ending_of said.now)) }
{
    match ending_of(alloc, said)? {
        None => Ok(Found::Unread),
        Some(ending) => Ok(Found::Read(ending)),
    }
}

/// What a phrase does that changes the world, or that ends a rule or the story.
fn other_of(alloc: Global, scope: &Scope<'_>, said: &Spoken) -> Result<Found<Simple>, AllocError>
    requires few { length (scope_of scope.now).repeats ≤ 255 }
    ensures { IfOk result (λ found. IsFoundAs (ChangesOrEnds (scope_of scope.now) said.now) phrase_is_over (found_simple found)) }
{
    match change_of(alloc, scope, said)? {
        Some(change) => Ok(change),
        None => ending_found(alloc, said),
    }
}

/// What a phrase does that others don't belong to; one that others belong to has no reading.
pub fn doing_of(
    alloc: Global,
    known: &Known<'_>,
    scope: &Scope<'_>,
    said: &Spoken,
) -> Result<Found<Simple>, AllocError>
    requires few { length (scope_of scope.now).repeats ≤ 255 }
    ensures { IfOk result (λ found. IsFoundAs (Does (known_of known.now) (scope_of scope.now) said.now) phrase_is_over (found_simple found)) }
{
    match said {
        Spoken::Say { text, .. } => said_of(alloc, scope, text.as_slice()),
        Spoken::Try { is_silent, action } => {
            try_of(alloc, known, scope, *is_silent, action.as_slice())
        }
        Spoken::Follow(book) => follow_of(alloc, known, book.as_slice()),
        _ => other_of(alloc, scope, said),
    }
}
