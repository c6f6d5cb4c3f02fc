//! The world of the moment, and how a change of it is taken back.
ghost use Rattle.std.specs.Prelude.{◌≡◌, ◌<◌, ℕ, IfOk, Some, length};
ghost use Rattle.object_tree.specs.Places.{holder_of};
ghost use Rattle.play_meaning.specs.Worlds.{place_of};
ghost use Rattle.world_meaning.specs.Chains.{IsTree};
ghost use Rattle.world_store.specs.Pasts.{undone, world_of};

use crate::columns::{Columns, write_at};
use crate::remembering::Was;
use object_tree::Tree;
use play_meaning::SceneNow;
use std::alloc::{AllocError, Global};
use world_meaning::TextBytes;

/// Where the objects of a story are, what is true of them, their numbers and values, and where variables, scenes, the turn count
/// and the ending stand.
#[derive(Drop)]
pub(crate) struct State {
    pub(crate) tree: Tree,
    pub(crate) flags: Columns<bool>,
    pub(crate) numbers: Columns<i32>,
    pub(crate) values: Columns<u8>,
    pub(crate) variables: Vec<i32>,
    pub(crate) scenes: Vec<SceneNow>,
    pub(crate) turns: u32,
    pub(crate) ended: Option<TextBytes>,
}

/// A copy of the ending's text, if there is one.
fn copied(alloc: Global, text: &Option<TextBytes>) -> Result<Option<TextBytes>, AllocError>
    ensures { IfOk result (λ copy. copy ≡ text.now) }
{
    match text {
        None => Ok(None),
        Some(text) => Ok(Some(TextBytes::copied(alloc, text.as_slice())?)),
    }
}

impl State {
    /// A state that is equal to this one.
    pub(crate) fn copy(&self, alloc: Global) -> Result<State, AllocError>
        ensures { IfOk result (λ state. world_of state ≡ world_of self.now) }
    {
        Ok(State {
            tree: self.tree.copy(alloc)?,
            flags: self.flags.copy(alloc)?,
            numbers: self.numbers.copy(alloc)?,
            values: self.values.copy(alloc)?,
            variables: Vec::from_slice(alloc, self.variables.as_slice())?,
            scenes: Vec::from_slice(alloc, self.scenes.as_slice())?,
            turns: self.turns,
            ended: copied(alloc, &self.ended)?,
        })
    }

    /// Takes back a change that replaced this. What an object was held by before it is there, and no chain was endless.
    #[tactic(auto, unfolding(play_meaning::specs::Worlds::set_flag, play_meaning::specs::Worlds::set_number, play_meaning::specs::Worlds::set_value))]
    pub(crate) fn undo(&mut self, was: Was)
        requires holders { (thing holder : ℕ) → holder_of (undone was (world_of self.old)).places thing ≡ Some holder → holder < length self.old.tree }
        requires tree { IsTree (place_of (undone was (world_of self.old))) }
        ensures { world_of self.new ≡ undone was (world_of self.old) }
    {
        match was {
            Was::Flag {
                property,
                object,
                value,
            } => self.flags.set(property, object, value),
            Was::Number {
                property,
                object,
                value,
            } => self.numbers.set(property, object, value),
            Was::Valued {
                kind,
                object,
                value,
            } => self.values.set(kind, object, value),
            Was::Variable { variable, value } => {
                write_at(&mut self.variables, Some(usize::from(variable)), value);
            }
            Was::Scene { scene, now } => {
                write_at(&mut self.scenes, Some(usize::from(scene)), now);
            }
            Was::Placed { object, place } => self.tree.move_to(object, place),
            Was::Turns(turns) => self.turns = turns,
            Was::Ended(text) => self.ended = text,
        }
    }
}
