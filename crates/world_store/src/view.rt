//! What a look and a step in a direction find in the world: what is on view in the player's room, the way from it, the
//! door on the way.
ghost use Rattle.std.specs.Prelude.{◌≡◌, IfOk, Some, filter};
ghost use Rattle.play_meaning.specs.Deeds.{is_on_view, on_view};
ghost use Rattle.play_meaning.specs.Settings.{objects_of};
ghost use Rattle.play_meaning.specs.Trees.{First};
ghost use Rattle.play_meaning.specs.Values.{beyond, has_quality, is_held};
ghost use Rattle.play_meaning.specs.Worlds.{location_of};
ghost use Rattle.world_meaning.specs.declared.place.Rel.TheVariants.{In};
ghost use Rattle.world_store.specs.StorySettings.{setting_of};

use crate::World;
use crate::sight::is_in;
use object_tree::Children;
use std::alloc::{AllocError, Global};
use story_code::is_held;
use story_format::{door_in, way_in};
use world_meaning::standard_properties::{DESCRIBED, SCENERY};
use world_meaning::{KindNo, ObjNo, Rel};

impl World {
    /// Whether an object's kind has an either-or property, by its number, that is true of the object.
    pub fn is_so(&self, object: ObjNo, property: u8) -> bool
        ensures { result ≡ has_quality (setting_of self.now.tables) self.now.world property First object }
    {
        self.has_flag(object, property) && self.flag(object, property)
    }

    /// Whether an object is directly in a room.
    fn is_directly_in(&self, object: ObjNo, room: ObjNo) -> bool
        ensures { result ≡ is_held self.now.world In (Some room) object }
    {
        match self.holder(object) {
            Some(place) => is_in(place.relation) && place.holder.get() == room.get(),
            None => false,
        }
    }

    /// Whether an object is a described thing directly in the player's room that is no scenery.
    fn is_on_view(&self, object: ObjNo) -> bool
        ensures { result ≡ is_on_view (setting_of self.now.tables) self.now.world object }
    {
        self.is_of(object, KindNo::THING)
            && self.is_so(object, DESCRIBED)
            && !self.is_so(object, SCENERY)
            && self.is_directly_in(object, self.location())
    }

    /// Those of these things that are on view.
    fn on_view_among(&self, alloc: Global, things: Children<'_>) -> Result<Vec<ObjNo>, AllocError>
        ensures { IfOk result (λ seen. seen.items ≡ filter (is_on_view (setting_of self.now.tables) self.now.world) things.entry) }
    {
        let mut seen = Vec::new(alloc);
        for thing in things {
            if self.is_on_view(thing) {
                seen.push(thing)?;
            }
        }
        Ok(seen)
    }

    /// What can be seen in the player's room, by rising number: the described things directly in it that are no scenery.
    pub fn on_view(&self, alloc: Global) -> Result<Vec<ObjNo>, AllocError>
        ensures { IfOk result (λ seen. seen.items ≡ on_view (setting_of self.now.tables) self.now.world) }
    {
        let things = self.state.tree.children(self.location());
        Ok(self.on_view_among(alloc, things)?)
    }

    /// Those of these things that a holder holds so.
    fn held_among(
        &self,
        alloc: Global,
        things: Children<'_>,
        relation: Rel,
        holder: ObjNo,
    ) -> Result<Vec<ObjNo>, AllocError>
        ensures { IfOk result (λ held. held.items ≡ filter (is_held self.now.world relation (Some holder)) things.entry) }
    {
        let mut held = Vec::new(alloc);
        for thing in things {
            if is_held(self, relation, Some(holder), thing) {
                held.push(thing)?;
            }
        }
        Ok(held)
    }

    /// What a holder holds so, directly, by rising number.
    pub fn held(
        &self,
        alloc: Global,
        relation: Rel,
        holder: ObjNo,
    ) -> Result<Vec<ObjNo>, AllocError>
        ensures { IfOk result (λ held. held.items ≡ filter (is_held self.now.world relation (Some holder)) (objects_of (setting_of self.now.tables))) }
    {
        let things = self.state.tree.children(holder);
        Ok(self.held_among(alloc, things, relation, holder)?)
    }

    /// The room beyond the way in a direction, by its number, from the player's room.
    pub fn way(&self, direction: ObjNo) -> Option<ObjNo>
        ensures { result ≡ beyond (setting_of self.now.tables) (setting_of self.now.tables).room_beyond (Some direction) (location_of self.now.world) }
    {
        let here = self.location();
        if self.is_of(direction, KindNo::DIRECTION) && self.is_of(here, KindNo::ROOM) {
            way_in(&self.exits(here), direction)
        } else {
            None
        }
    }

    /// The door on the way in a direction, by its number, from the player's room.
    pub fn door_on_way(&self, direction: ObjNo) -> Option<ObjNo>
        ensures { result ≡ beyond (setting_of self.now.tables) (setting_of self.now.tables).door_beyond (Some direction) (location_of self.now.world) }
    {
        let here = self.location();
        if self.is_of(direction, KindNo::DIRECTION) && self.is_of(here, KindNo::ROOM) {
            door_in(&self.exits(here), direction)
        } else {
            None
        }
    }
}
