//! Whether the codes of a text, a rule or a scene are too long, each by itself.
ghost use Rattle.std.specs.Prelude.{IfOk, ℕ, List, [], ◌∷◌, map};
ghost use Rattle.std.specs.Option.{option_map};
ghost use Rattle.object_words.specs.Mentions.{number_in};
ghost use Rattle.play_meaning.specs.Meant.{body_meant, condition_meant, text_meant};
ghost use Rattle.play_meaning.specs.Patterns.{rule_meant};
ghost use Rattle.play_meaning.specs.ScenesMeant.{scene_meant};
ghost use Rattle.play_meaning.specs.TranslatedScripts.{in_list};
ghost use Rattle.code_table.specs.Emitted.{IsToldLong};
ghost use Rattle.code_table.specs.Origins.{Asks, Describes, Does, origins_of_rule, origins_of_scene};

use object_words::Strings;
use play_meaning::Counts;
use play_meaning::tree::{Condition, MeantRule, MeantScene, Phrase, Text};
use std::alloc::{AllocError, Global};
use story_code::{EmitFault, body_codes, condition_codes, description_codes};

/// Whether a text doesn't fit, or bytes can't say its code and the tests that it names, each string by its number among `strings`.
pub fn text_is_long(
    alloc: Global,
    counts: &Counts,
    strings: &Strings,
    text: &Text,
) -> Result<bool, AllocError>
    ensures { IfOk result (IsToldLong counts.now (number_in strings.now) (Describes (text_meant text.now) ∷ [])) }
{
    match description_codes(alloc, counts, strings, 0, text) {
        Ok(_) => Ok(false),
        Err(EmitFault::TooLong) => Ok(true),
        Err(EmitFault::Memory) => Err(AllocError),
    }
}

/// The same of a condition, if there is one.
fn asked_is_long(
    alloc: Global,
    counts: &Counts,
    asked: &Option<Condition>,
) -> Result<bool, AllocError>
    ensures { (string : List ℕ → ℕ) → IfOk result (IsToldLong counts.now string (map Asks (in_list (option_map condition_meant asked.now)))) }
{
    let Some(condition) = asked else {
        return Ok(false);
    };
    match condition_codes(alloc, counts, 0, condition) {
        Ok(_) => Ok(false),
        Err(EmitFault::TooLong) => Ok(true),
        Err(EmitFault::Memory) => Err(AllocError),
    }
}

/// The same of a body.
fn body_is_long(
    alloc: Global,
    counts: &Counts,
    strings: &Strings,
    body: &[Phrase],
) -> Result<bool, AllocError>
    ensures { IfOk result (IsToldLong counts.now (number_in strings.now) (Does (body_meant body.now) ∷ [])) }
{
    match body_codes(alloc, counts, strings, 0, body) {
        Ok(_) => Ok(false),
        Err(EmitFault::TooLong) => Ok(true),
        Err(EmitFault::Memory) => Err(AllocError),
    }
}

/// Whether this is so of the condition of a rule, or of its body.
pub fn rule_is_long(
    alloc: Global,
    counts: &Counts,
    strings: &Strings,
    rule: &MeantRule,
) -> Result<bool, AllocError>
    ensures { IfOk result (IsToldLong counts.now (number_in strings.now) (origins_of_rule (rule_meant rule.now))) }
{
    if asked_is_long(alloc, counts, &rule.head.condition)? {
        return Ok(true);
    }
    body_is_long(alloc, counts, strings, rule.body.as_slice())
}

/// Whether this is so of the condition on which a scene begins, or of that on which it ends.
pub fn scene_is_long(alloc: Global, counts: &Counts, scene: &MeantScene) -> Result<bool, AllocError>
    ensures { (string : List ℕ → ℕ) → IfOk result (IsToldLong counts.now string (origins_of_scene (scene_meant scene.now))) }
{
    if asked_is_long(alloc, counts, &scene.begins)? {
        return Ok(true);
    }
    asked_is_long(alloc, counts, &scene.ends)
}
