//! What the descriptions of objects say.
ghost use Rattle.story_code.specs.Runs.{Tells};
ghost use Rattle.world_store.specs.StoryGames.{DescriptionIs};

use crate::World;
use play_meaning::ActionNow;
use std::alloc::Global;
use story_code::description;
use world_meaning::{Abandon, ObjNo};

impl World {
    /// What an object's description says in an action, and a line break; nothing of an object that isn't described.
    ///
    /// # Errors
    ///
    /// Out of range where a number that it works out is, and want of memory.
    pub fn describe(
        &self,
        alloc: Global,
        now: &ActionNow,
        object: ObjNo,
    ) -> Result<Vec<u8>, Abandon>
        ensures { Tells (DescriptionIs self.now now.now object) (λ said. said.items) result }
    {
        let codes = self.story().codes();
        description(alloc, self, codes, now, Some(object))
    }
}
