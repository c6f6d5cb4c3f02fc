//! A change of the world as data, and what comes of making it.
ghost use Rattle.std.specs.Prelude.{◌≡◌, ◌≢◌, Err, MatchResult, OnErr, OnOk};
ghost use Rattle.play_meaning.specs.Changes.{Remembers};
ghost use Rattle.play_meaning.specs.Effects.{made};
ghost use Rattle.play_meaning.specs.declared.fault.WorldFault.TheVariants.{Memory};

use crate::{GroundMut, SceneNow, WorldFault};
use std::alloc::AllocError;
use world_meaning::{ObjNo, Rel, TextBytes};

/// One change of the world: a call of `GroundMut` with its arguments, properties, variables, kinds of value and scenes by their numbers.
#[derive(Drop)]
pub enum Change {
    SetFlag {
        object: ObjNo,
        property: u8,
        value: bool,
    },
    SetNumber {
        object: ObjNo,
        property: u8,
        value: i32,
    },
    SetVariable {
        variable: u8,
        value: i32,
    },
    SetValue {
        object: ObjNo,
        kind: u8,
        value: u8,
    },
    Put {
        object: ObjNo,
        relation: Rel,
        holder: ObjNo,
    },
    TakeOut(ObjNo),
    SetScene {
        scene: u8,
        now: SceneNow,
    },
    EndStory(TextBytes),
}

/// The change that does nothing in any world: the player is never taken away. It fills the places of a list that hold none.
impl Default for Change {
    fn default() -> Change {
        Change::TakeOut(ObjNo::new(0))
    }
}

/// A change that isn't allowed does nothing; one that can't be remembered is refused.
fn unless_refused(answer: Result<(), WorldFault>) -> Result<(), AllocError>
    ensures { MatchResult result (λ done. answer ≢ Err Memory) (λ refused. answer ≡ Err Memory) }
{
    match answer {
        Err(WorldFault::Memory) => Err(AllocError),
        _ => Ok(()),
    }
}

/// Makes a change; one that isn't allowed does nothing.
///
/// # Errors
/// Want of memory for taking the change back; nothing is changed then.
pub fn make<G: GroundMut>(ground: &mut G, change: Change) -> Result<(), AllocError>
    ensures made { OnOk result (G.world ground.new ≡ made (G.fixed ground.old).setting (G.world ground.old) change) }
    ensures refused { OnErr result (G.world ground.new ≡ G.world ground.old) }
    ensures past { Remembers (G.world ground.old) (G.past ground.old) (G.past ground.new) }
    ensures fixed { G.fixed ground.new ≡ G.fixed ground.old }
{
    let answer = match change {
        Change::SetFlag {
            object,
            property,
            value,
        } => ground.set_flag(object, property, value),
        Change::SetNumber {
            object,
            property,
            value,
        } => ground.set_number(object, property, value),
        Change::SetVariable { variable, value } => ground.set_variable(variable, value),
        Change::SetValue {
            object,
            kind,
            value,
        } => ground.set_value(object, kind, value),
        Change::Put {
            object,
            relation,
            holder,
        } => ground.put(object, relation, holder),
        Change::TakeOut(object) => ground.take_out(object),
        Change::SetScene { scene, now } => ground.set_scene(scene, now),
        Change::EndStory(text) => ground.end_story(text),
    };
    unless_refused(answer)
}
