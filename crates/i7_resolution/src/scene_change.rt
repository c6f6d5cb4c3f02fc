//! What a sentence says of a scene, once names are known: `Storm begins when the score is at least 1` (*Writing with Inform*,
//! 10.3).
ghost use Rattle.std.specs.Prelude.{◌≡◌, [], IfOk};
ghost use Rattle.i7_conditions.specs.Clauses.{asks_over};
ghost use Rattle.i7_conditions.specs.Conditions.{IsCondition};
ghost use Rattle.i7_conditions.specs.Conjoining.{found_condition};
ghost use Rattle.i7_conditions.specs.Readings.{IsFoundAs, one};
ghost use Rattle.i7_rules.specs.Knowns.{known_of, scope_among};
ghost use Rattle.i7_resolution.specs.SceneChanges.{Tells, found_told, told_is_over, told_of};

use i7_conditions::{Found, Scope, condition_of};
use i7_rules::{Known, scene_of};
use i7_sentences::SceneChange;
use play_meaning::tree::Condition;
use std::alloc::{AllocError, Global};
use world_meaning::TextBytes;

/// A scene, by its number, and the condition on which it begins or ends.
#[derive(Drop)]
pub struct SceneTold {
    pub scene: u8,
    pub condition: Condition,
}

/// What words ask, around which no repeat is open.
fn asked(
    alloc: Global,
    known: &Known<'_>,
    words: &[TextBytes],
) -> Result<Found<Condition>, AllocError>
    ensures { IfOk result (λ found. IsFoundAs (IsCondition (scope_among (known_of known.now) []) words.now) asks_over (found_condition found)) }
{
    let scope = Scope {
        names: known.names,
        repeats: &[],
    };
    let condition = condition_of(alloc, &scope, words)?;
    Ok(condition)
}

/// A scene, and what is found of its condition.
fn told_of(scene: u8, condition: Found<Condition>) -> Found<SceneTold>
    ensures { found_told result ≡ one (told_of scene) (found_condition condition) }
{
    match condition {
        Found::Read(condition) => Found::Read(SceneTold { scene, condition }),
        Found::TooMany => Found::TooMany,
        Found::Unread => Found::Unread,
    }
}

/// What a sentence says of a scene.
pub fn change_of(
    alloc: Global,
    known: &Known<'_>,
    said: &SceneChange,
) -> Result<Found<SceneTold>, AllocError>
    ensures { IfOk result (λ found. IsFoundAs (Tells (known_of known.now) said.now) told_is_over (found_told found)) }
{
    match scene_of(alloc, known, said.scene.as_slice())? {
        None => Ok(Found::Unread),
        Some(scene) => {
            let condition = asked(alloc, known, said.condition.as_slice())?;
            Ok(told_of(scene, condition))
        }
    }
}
