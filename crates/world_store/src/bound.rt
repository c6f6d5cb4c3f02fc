//! Which story a world is of: code that knows a world by what its words are read against alone leaves open which tables it is
//! of behind it, so that it is told that again.
ghost use Rattle.std.specs.Prelude.{◌≡◌, IfOk};
ghost use Rattle.world_store.specs.StoryWorlds.{AreKept, worlds};

use crate::World;
use crate::atlas::Atlas;
use std::alloc::AllocError;
use std::marker::Model;
use std::rc::Rc;

/// A story that worlds may be of.
#[derive(Drop)]
pub struct Bound {
    atlas: Rc<Atlas>,
}

impl Model for Bound {
    ghost use Rattle.story_format.specs.declared.tables.Tables.{Tables};

    ghost Value = { Tables };

    ghost view = { λ b. b.atlas.value };
}

impl World {
    /// The story that the world is of.
    pub fn bound(&self) -> Result<Bound, AllocError>
        ensures { IfOk result (λ bound. bound ≡ self.now.tables) }
    {
        Ok(Bound {
            atlas: self.atlas.clone()?,
        })
    }

    /// The world is one of this story, whose lists it has, and so are those before it.
    pub fn bind(&mut self, bound: Bound)
        requires kept { AreKept bound (worlds self.old) }
        ensures { self.new ≡ record self.old { tables = bound } }
    {
        self.atlas = bound.atlas;
    }
}
