//! Sentences that say on what a scene begins or ends (*Writing with Inform*, 10.3): `Storm begins when the score is at least 1.`
ghost use Rattle.std.specs.Prelude.{◌≡◌, map, IfOk};
ghost use Rattle.i7_sentences.specs.SceneChanges.{scene_change};

use crate::condition::is_condition;
use crate::tagged::Tagged;
use crate::word_list::{named_in, words_in};
use crate::{Assertion, WordList};
use std::alloc::{AllocError, Global};

/// What a condition decides of a scene.
#[derive(Clone, Copy)]
pub enum SceneEdge {
    Begins,
    Ends,
}

/// What a sentence says of a scene: that it begins or ends where a condition holds.
#[derive(Drop)]
pub struct SceneChange {
    /// The words between the free article and `begins` or `ends`.
    pub scene: WordList,
    pub edge: SceneEdge,
    /// The words behind `when`.
    pub condition: WordList,
}

/// On what a scene begins or ends, if the words behind `when` have the shape of a condition.
pub(crate) fn scene_change(
    alloc: Global,
    edge: SceneEdge,
    letters: &[&[Tagged<'_>]],
) -> Result<Option<Assertion>, AllocError>
    ensures { IfOk result (λ said. said ≡ scene_change edge (map (λ letter. letter.now) letters.now)) }
{
    match letters {
        [scene, words] => {
            let condition = words_in(alloc, words)?;
            if !is_condition(condition.as_slice()) {
                return Ok(None);
            }
            let scene = named_in(alloc, scene)?;
            Ok(Some(Assertion::SceneChange(SceneChange {
                scene,
                edge,
                condition,
            })))
        }
        _ => Ok(None),
    }
}
