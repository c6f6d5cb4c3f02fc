//! A story with the ways of each object at hand, so that no question goes through the rooms that stand in front of one.
ghost use Rattle.std.specs.Prelude.{◌≡◌, IfOk, None, length, map, slice_index_or};
ghost use Rattle.std.specs.List.{range_with_len};
ghost use Rattle.story_format.specs.InPlay.{exits_of};

use std::alloc::{AllocError, Global};
use std::marker::Model;
use std::rc::Rc;
use story_format::Story;
use world_meaning::{Exits, ObjNo};

/// A story, and by object number the ways of each room.
#[derive(Drop)]
pub(crate) struct Atlas {
    story: Rc<Story>,
    exits: Vec<Option<Exits>>,
}

impl Model for Atlas {
    ghost use Rattle.std.specs.Prelude.{◌≡◌, length, map};
    ghost use Rattle.std.specs.List.{range_with_len};
    ghost use Rattle.story_format.specs.InPlay.{exits_of};
    ghost use Rattle.story_format.specs.declared.tables.Tables.{Tables};

    ghost Value = { Tables };

    ghost view = { λ a. a.story.value };

    ghost invariant = { λ a. a.exits.items ≡ map (exits_of a.story.value) (range_with_len 0 (length a.story.value.objects)) };
}

/// The ways of each object of a story, by number.
fn exits_of_each(alloc: Global, story: &Story) -> Result<Vec<Option<Exits>>, AllocError>
    ensures { IfOk result (λ exits. exits.items ≡ map (exits_of story.now) (range_with_len 0 (length story.now.objects))) }
{
    let exits = (0..story.object_count()).map(|number| story.exits(ObjNo::new(number as u16)));
    exits.collect(alloc)
}

fn exits_in(table: &[Option<Exits>], room: ObjNo) -> Option<Exits>
    ensures { result ≡ slice_index_or table.now room None }
{
    table.get(usize::from(room.get())).copied().unwrap_or(None)
}

impl Atlas {
    /// The atlas of a story.
    pub(crate) fn new(alloc: Global, story: &Rc<Story>) -> Result<Atlas, AllocError>
        ensures { IfOk result (λ atlas. atlas ≡ story.now.value) }
    {
        Ok(Atlas {
            exits: exits_of_each(alloc, story.as_ref())?,
            story: story.clone()?,
        })
    }

    /// The story.
    pub(crate) fn story(&self) -> &Story
        ensures { result.now ≡ self.now }
    {
        self.story.as_ref()
    }

    /// The story, to be shared.
    pub(crate) fn shared(&self) -> &Rc<Story>
        ensures { result.now.value ≡ self.now }
    {
        &self.story
    }

    /// The ways of a room, if it is one.
    pub(crate) fn exits(&self, room: ObjNo) -> Option<Exits>
        ensures { result ≡ exits_of self.now room }
    {
        exits_in(self.exits.as_slice(), room)
    }
}
