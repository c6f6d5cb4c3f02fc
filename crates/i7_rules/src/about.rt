//! What the head of a rule says it is about: a pattern, or the place, and a scene.
ghost use Rattle.std.specs.Prelude.{◌≡◌, [], IfOk};
ghost use Rattle.i7_conditions.specs.Clauses.{scene_named};
ghost use Rattle.i7_patterns.specs.PatternForms.{asked_aspect, asked_pattern, with_meaning};
ghost use Rattle.play_meaning.specs.Patterns.{pattern_meant};
ghost use Rattle.i7_rules.specs.Abouts.{Happens, HappensSo, IsAbout, IsFound, IsGiven, IsPatternOf, IsPlaceOf, IsSubject, during, happening, in_place};
ghost use Rattle.i7_rules.specs.Knowns.{known_of, scope_among};

use crate::known::Known;
use i7_conditions::{Scope, scene_named};
use i7_patterns::{Asked, pattern_of, place_of};
use i7_sentences::{Rule, RuleSubject};
use play_meaning::tree::{Aspect, Pattern};
use std::alloc::{AllocError, Global};
use world_meaning::TextBytes;

/// The scene that words name.
pub fn scene_of(
    alloc: Global,
    known: &Known<'_>,
    words: &[TextBytes],
) -> Result<Option<u8>, AllocError>
    ensures { IfOk result (λ scene. scene ≡ scene_named (scope_among (known_of known.now) []) words.now) }
{
    let scope = Scope {
        names: known.names,
        repeats: &[],
    };
    Ok(scene_named(alloc, &scope, words)?)
}

/// The scene behind `during`.
fn happening_by(
    alloc: Global,
    known: &Known<'_>,
    words: &[TextBytes],
) -> Result<Option<Option<u8>>, AllocError>
    ensures { IfOk result (λ scene. IsGiven (HappensSo (known_of known.now) words.now) scene) }
{
    match scene_of(alloc, known, words)? {
        None => Ok(None),
        Some(scene) => Ok(Some(Some(scene))),
    }
}

/// The scene that must happen, if the head names one.
fn scene_asked(
    alloc: Global,
    known: &Known<'_>,
    rule: &Rule,
) -> Result<Option<Option<u8>>, AllocError>
    ensures { IfOk result (λ scene. IsGiven (Happens (known_of known.now) rule.now.scene) scene) }
{
    match &rule.scene {
        None => Ok(Some(None)),
        Some(words) => happening_by(alloc, known, words.as_slice()),
    }
}

/// The pattern that words are.
fn pattern_by(
    alloc: Global,
    known: &Known<'_>,
    words: &[TextBytes],
) -> Result<Asked<Pattern>, AllocError>
    ensures { IfOk result (λ found. IsFound (known_of known.now) (IsPatternOf (known_of known.now) words.now) (asked_pattern found)) }
{
    let scope = Scope {
        names: known.names,
        repeats: &[],
    };
    let found = pattern_of(
        alloc,
        &scope,
        known.actions,
        known.parents,
        known.objects,
        words,
    )?;
    Ok(found)
}

/// A pattern of nothing but the place.
fn in_place(place: Asked<Aspect>) -> Asked<Pattern>
    ensures { asked_pattern result ≡ with_meaning in_place (asked_aspect place) }
{
    match place {
        Asked::Read(place) => Asked::Read(Pattern {
            action: None,
            noun: Aspect::Anything,
            second: Aspect::Anything,
            place,
            scene: None,
        }),
        Asked::WrongKind => Asked::WrongKind,
        Asked::TooMany => Asked::TooMany,
        Asked::Unread => Asked::Unread,
    }
}

/// The pattern of the place that words are.
fn place_by(
    alloc: Global,
    known: &Known<'_>,
    words: &[TextBytes],
) -> Result<Asked<Pattern>, AllocError>
    ensures { IfOk result (λ found. IsFound (known_of known.now) (IsPlaceOf (known_of known.now) words.now) (asked_pattern found)) }
{
    let scope = Scope {
        names: known.names,
        repeats: &[],
    };
    let place = place_of(alloc, &scope, known.parents, known.objects, words)?;
    Ok(in_place(place))
}

/// What a head says of the action and of the place.
fn subject_of(
    alloc: Global,
    known: &Known<'_>,
    subject: &RuleSubject,
) -> Result<Asked<Pattern>, AllocError>
    ensures { IfOk result (λ found. IsFound (known_of known.now) (IsSubject (known_of known.now) subject.now) (asked_pattern found)) }
{
    match subject {
        RuleSubject::Anything => Ok(Asked::Read(Pattern::anything())),
        RuleSubject::Pattern(words) => pattern_by(alloc, known, words.as_slice()),
        RuleSubject::Place(words) => place_by(alloc, known, words.as_slice()),
    }
}

/// The pattern while this scene happens.
fn during(pattern: Pattern, scene: Option<u8>) -> Pattern
    ensures { pattern_meant result ≡ during (pattern_meant pattern) scene }
{
    Pattern { scene, ..pattern }
}

/// The same of what is found, if the scene is there.
fn happening(found: Asked<Pattern>, scene: Option<Option<u8>>) -> Asked<Pattern>
    ensures { asked_pattern result ≡ happening (asked_pattern found) scene }
{
    match scene {
        None => Asked::Unread,
        Some(scene) => match found {
            Asked::Read(pattern) => Asked::Read(during(pattern, scene)),
            Asked::WrongKind => Asked::WrongKind,
            Asked::TooMany => Asked::TooMany,
            Asked::Unread => Asked::Unread,
        },
    }
}

/// What a rule is about by its head, its condition aside.
pub fn about_of(alloc: Global, known: &Known<'_>, rule: &Rule) -> Result<Asked<Pattern>, AllocError>
    ensures { IfOk result (λ found. IsFound (known_of known.now) (IsAbout (known_of known.now) rule.now) (asked_pattern found)) }
{
    let found = subject_of(alloc, known, &rule.subject)?;
    let scene = scene_asked(alloc, known, rule)?;
    Ok(happening(found, scene))
}
