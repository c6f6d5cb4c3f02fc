//! What the head of a rule says: `Instead of taking the ball during the storm when the box is open` (*Writing with Inform*,
//! chapters 7, 10 and 19).
ghost use Rattle.std.specs.Prelude.{◌≡◌, ◌+◌, ◌*◌, ◌≤◌, Some, IfOk};
ghost use Rattle.i7_conditions.specs.Conjoining.{found_condition};
ghost use Rattle.i7_conditions.specs.Readings.{IsFoundAs, one};
ghost use Rattle.i7_patterns.specs.PatternForms.{asked_pattern};
ghost use Rattle.i7_rules.specs.Abouts.{IsGiven};
ghost use Rattle.i7_rules.specs.Heads.{AsksSo, IsAsked, IsBook, IsHeadFound, IsOfScene, asked_head, found_asked, headed, is_asked_over, numbered};
ghost use Rattle.i7_rules.specs.Knowns.{known_of};

use crate::about::{about_of, scene_of};
use crate::known::Known;
use i7_actions::own_book_of;
use i7_conditions::{Found, Scope, condition_of};
use i7_patterns::Asked;
use i7_sentences::{Rule, RuleBook};
use play_meaning::standard_books::{
    AFTER, BEFORE, CARRY_OUT, CHECK, EVERY_TURN, INSTEAD, PLAY_BEGINS, REPORT, SCENE_BEGINS,
    SCENE_ENDS,
};
use play_meaning::tree::{Condition, Listing, Pattern, RuleHead};
use std::alloc::{AllocError, Global};
use world_meaning::TextBytes;

/// One of a scene's rulebooks, if the scene is there, where the first scene's has this number.
fn numbered(first: u16, scene: Option<u8>) -> Option<u16>
    requires { first ≤ 9 }
    ensures { result ≡ numbered first scene }
{
    match scene {
        None => None,
        Some(scene) => Some(first + 2 * u16::from(scene)),
    }
}

/// One of the rulebooks of the scene that words name.
fn book_of_scene(
    alloc: Global,
    known: &Known<'_>,
    first: u16,
    words: &[TextBytes],
) -> Result<Option<u16>, AllocError>
    requires { first ≤ 9 }
    ensures { IfOk result (λ number. IsGiven (IsOfScene (known_of known.now) (λ scene. first + 2 * scene) words.now) number) }
{
    let scene = scene_of(alloc, known, words)?;
    Ok(numbered(first, scene))
}

/// The rulebook that a head names, if it is there.
pub fn book_of_head(
    alloc: Global,
    known: &Known<'_>,
    book: &RuleBook,
) -> Result<Option<u16>, AllocError>
    ensures { IfOk result (λ number. IsGiven (IsBook (known_of known.now) book.now) number) }
{
    match book {
        RuleBook::Before => Ok(Some(BEFORE)),
        RuleBook::Instead => Ok(Some(INSTEAD)),
        RuleBook::Check => Ok(Some(CHECK)),
        RuleBook::CarryOut => Ok(Some(CARRY_OUT)),
        RuleBook::After => Ok(Some(AFTER)),
        RuleBook::Report => Ok(Some(REPORT)),
        RuleBook::EveryTurn => Ok(Some(EVERY_TURN)),
        RuleBook::PlayBegins => Ok(Some(PLAY_BEGINS)),
        RuleBook::SceneBegins(words) => {
            book_of_scene(alloc, known, SCENE_BEGINS, words.as_slice())
        }
        RuleBook::SceneEnds(words) => book_of_scene(alloc, known, SCENE_ENDS, words.as_slice()),
        RuleBook::Own(words) => {
            own_book_of(alloc, known.rulebooks, known.scenes, words.as_slice())
        }
    }
}

/// A condition that was looked for, as one that may be there.
fn asked_so(condition: Found<Condition>) -> Found<Option<Condition>>
    ensures { found_asked result ≡ one Some (found_condition condition) }
{
    match condition {
        Found::Read(condition) => Found::Read(Some(condition)),
        Found::TooMany => Found::TooMany,
        Found::Unread => Found::Unread,
    }
}

/// What the words behind a head's `when` ask.
fn asked_by(
    alloc: Global,
    known: &Known<'_>,
    words: &[TextBytes],
) -> Result<Found<Option<Condition>>, AllocError>
    ensures { IfOk result (λ found. IsFoundAs (AsksSo (known_of known.now) words.now) is_asked_over (found_asked found)) }
{
    let scope = Scope {
        names: known.names,
        repeats: &[],
    };
    let condition = condition_of(alloc, &scope, words)?;
    Ok(asked_so(condition))
}

/// What a head asks behind its `when`, if it has one.
fn asked(
    alloc: Global,
    known: &Known<'_>,
    rule: &Rule,
) -> Result<Found<Option<Condition>>, AllocError>
    ensures { IfOk result (λ found. IsFoundAs (IsAsked (known_of known.now) rule.now.condition) is_asked_over (found_asked found)) }
{
    match &rule.condition {
        None => Ok(Found::Read(None)),
        Some(words) => asked_by(alloc, known, words.as_slice()),
    }
}

/// A head of this rulebook, by what is found of what it is about and of its condition.
fn headed(book: u16, about: Asked<Pattern>, condition: Found<Option<Condition>>) -> Asked<RuleHead>
    ensures { asked_head result ≡ headed book (asked_pattern about) (found_asked condition) }
{
    match condition {
        Found::Read(condition) => match about {
            Asked::Read(pattern) => Asked::Read(RuleHead {
                book,
                pattern,
                condition,
                listing: Listing::InOrder,
            }),
            Asked::WrongKind => Asked::WrongKind,
            Asked::TooMany => Asked::TooMany,
            Asked::Unread => Asked::Unread,
        },
        Found::TooMany => match about {
            Asked::Read(_) | Asked::TooMany => Asked::TooMany,
            Asked::WrongKind => Asked::WrongKind,
            Asked::Unread => Asked::Unread,
        },
        Found::Unread => Asked::Unread,
    }
}

/// What a head of this rulebook says.
fn headed_by(
    alloc: Global,
    known: &Known<'_>,
    rule: &Rule,
    book: u16,
) -> Result<Asked<RuleHead>, AllocError>
    ensures { IfOk result (λ found. IsBook (known_of known.now) rule.now.book book → IsHeadFound (known_of known.now) rule.now (asked_head found)) }
{
    let about = about_of(alloc, known, rule)?;
    let condition = asked(alloc, known, rule)?;
    Ok(headed(book, about, condition))
}

/// What the head of a rule says.
pub fn head_of(alloc: Global, known: &Known<'_>, rule: &Rule) -> Result<Asked<RuleHead>, AllocError>
    ensures { IfOk result (λ found. IsHeadFound (known_of known.now) rule.now (asked_head found)) }
{
    match book_of_head(alloc, known, &rule.book)? {
        None => Ok(Asked::Unread),
        Some(book) => headed_by(alloc, known, rule, book),
    }
}
