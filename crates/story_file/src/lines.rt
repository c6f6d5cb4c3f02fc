//! The lines of descriptions, rules and scenes.
ghost use Rattle.std.specs.Prelude.{◌≡◌, IfOk};
ghost use Rattle.i7_conditions.specs.Scopes.{scope_of};
ghost use Rattle.story_file.specs.Lines.{changes_scene, describes_with, is_rule, is_some_of, line_of, line_of_scene, rule_lines, scene_lines, text_lines};

use i7_conditions::{Scope, scene_named};
use i7_sentences::{Assertion, Sentence};
use std::alloc::{AllocError, Global};
use world_meaning::Object;

/// Whether what is asserted describes with this text.
fn describes_with(text: &[u8], said: &Assertion) -> bool
    ensures { result ≡ describes_with text.now said.now }
{
    match said {
        Assertion::Description(other) => other.as_slice() == text,
        Assertion::DescriptionOf { text: other, .. } => other.as_slice() == text,
        _ => false,
    }
}

/// The line of the first sentence that describes with this text; 1 without one.
fn line_of(sentences: &[Sentence], text: &[u8]) -> u32
    ensures { result ≡ line_of sentences.now text.now }
{
    let mut rest = sentences;
    while let [sentence, after @ ..] = rest {
        if describes_with(text, &sentence.said) {
            return sentence.line;
        }
        rest = after;
    }
    1
}

/// The lines of the descriptions, in the order of the objects that have one: of each that of the first sentence that says it.
pub fn text_lines(
    alloc: Global,
    sentences: &[Sentence],
    objects: &[Object],
) -> Result<Vec<u32>, AllocError>
    ensures { IfOk result (λ lines. lines.items ≡ text_lines sentences.now objects.now) }
{
    let mut lines = Vec::new(alloc);
    let mut rest = objects;
    while let [object, after @ ..] = rest {
        if let Some(text) = &object.description {
            lines.push(line_of(sentences, text.as_slice()))?;
        }
        rest = after;
    }
    Ok(lines)
}

fn is_rule(said: &Assertion) -> bool
    ensures { result ≡ is_rule said.now }
{
    matches!(said, Assertion::Rule(_))
}

/// The lines of the rules, in the order of the sentences.
pub fn rule_lines(alloc: Global, sentences: &[Sentence]) -> Result<Vec<u32>, AllocError>
    ensures { IfOk result (λ lines. lines.items ≡ rule_lines sentences.now) }
{
    let mut lines = Vec::new(alloc);
    let mut rest = sentences;
    while let [sentence, after @ ..] = rest {
        if is_rule(&sentence.said) {
            lines.push(sentence.line)?;
        }
        rest = after;
    }
    Ok(lines)
}

fn is_some_of(number: usize, scene: Option<u8>) -> bool
    ensures { result ≡ is_some_of number scene }
{
    match scene {
        None => false,
        Some(scene) => usize::from(scene) == number,
    }
}

/// Whether what is asserted says on what the scene of this number begins or ends.
fn changes_scene(
    alloc: Global,
    scope: &Scope<'_>,
    number: usize,
    said: &Assertion,
) -> Result<bool, AllocError>
    ensures { IfOk result (λ changes. changes ≡ changes_scene (scope_of scope.now) number said.now) }
{
    match said {
        Assertion::SceneChange(change) => {
            let scene = scene_named(alloc, scope, change.scene.as_slice())?;
            Ok(is_some_of(number, scene))
        }
        _ => Ok(false),
    }
}

/// The line of the first sentence that says on what the scene of this number begins or ends; 1 where there is none.
fn line_of_scene(
    alloc: Global,
    scope: &Scope<'_>,
    sentences: &[Sentence],
    number: usize,
) -> Result<u32, AllocError>
    ensures { IfOk result (λ line. line ≡ line_of_scene (scope_of scope.now) sentences.now number) }
{
    let mut rest = sentences;
    while let [sentence, after @ ..] = rest {
        if changes_scene(alloc, scope, number, &sentence.said)? {
            return Ok(sentence.line);
        }
        rest = after;
    }
    Ok(1)
}

/// The line of the first sentence that says on what a scene begins or ends, of each of so many scenes.
pub fn scene_lines(
    alloc: Global,
    scope: &Scope<'_>,
    sentences: &[Sentence],
    count: usize,
) -> Result<Vec<u32>, AllocError>
    ensures { IfOk result (λ lines. lines.items ≡ scene_lines (scope_of scope.now) sentences.now count) }
{
    let mut lines = Vec::new(alloc);
    for number in 0..count {
        lines.push(line_of_scene(alloc, scope, sentences, number)?)?;
    }
    Ok(lines)
}
