//! The world of a story as a ground, which a rule's words are read against and change.
ghost use Rattle.world_store.specs.StorySettings.{fixed_of};

use crate::World;
use play_meaning::{Ground, GroundMut, SceneNow, WorldFault};
use story_format::{door_in, way_in};
use world_meaning::{Article, KindNo, ObjNo, Place, Rel, TextBytes};

impl Ground for World {
    ghost fixed = { λ w. fixed_of w.tables };

    ghost world = { λ w. w.world };

    #[tactic(auto, unfolding(crate::specs::StorySettings::setting_of))]
    fn object_count(&self) -> u16 {
        self.story().object_count() as u16
    }

    #[tactic(auto, unfolding(crate::specs::StorySettings::setting_of))]
    fn name(&self, object: ObjNo) -> &[u8] {
        self.story().name(object)
    }

    #[tactic(auto, unfolding(crate::specs::StorySettings::setting_of))]
    fn article(&self, object: ObjNo) -> Article {
        self.story().article(object)
    }

    fn is_of(&self, object: ObjNo, kind: KindNo) -> bool {
        self.is_of(object, kind)
    }

    fn has_flag(&self, object: ObjNo, property: u8) -> bool {
        self.has_flag(object, property)
    }

    fn has_number(&self, object: ObjNo, property: u8) -> bool {
        self.has_number(object, property)
    }

    #[tactic(auto, unfolding(crate::specs::StorySettings::setting_of))]
    fn has_description(&self, object: ObjNo) -> bool {
        self.story().description_code(object).is_some()
    }

    fn description(&self, object: ObjNo) -> Option<u16> {
        self.story().description_code(object)
    }

    #[tactic(auto, unfolding(crate::specs::StorySettings::setting_of))]
    fn room_beyond(&self, room: ObjNo, direction: ObjNo) -> Option<ObjNo> {
        way_in(&self.exits(room), direction)
    }

    #[tactic(auto, unfolding(crate::specs::StorySettings::setting_of))]
    fn door_beyond(&self, room: ObjNo, direction: ObjNo) -> Option<ObjNo> {
        door_in(&self.exits(room), direction)
    }

    fn string(&self, string: u16) -> &[u8] {
        self.story().string(string)
    }

    fn holder(&self, object: ObjNo) -> Option<Place> {
        self.holder(object)
    }

    fn flag(&self, object: ObjNo, property: u8) -> bool {
        self.flag(object, property)
    }

    fn number(&self, object: ObjNo, property: u8) -> i32 {
        self.number(object, property)
    }

    fn value(&self, object: ObjNo, kind: u8) -> Option<u8> {
        self.value(object, kind)
    }

    #[tactic(auto, unfolding(crate::specs::StorySettings::setting_of))]
    fn value_name(&self, kind: u8, value: u8) -> &[u8] {
        self.story()
            .value_name(usize::from(kind), usize::from(value))
    }

    fn variable(&self, variable: u8) -> i32 {
        self.variable(variable)
    }

    fn scene(&self, scene: u8) -> SceneNow {
        self.scene(scene)
    }

    fn turns(&self) -> u32 {
        self.turns()
    }

    fn ended(&self) -> Option<&[u8]> {
        self.ended()
    }

    fn lit_here(&self) -> bool {
        self.lit_here()
    }

    fn visible(&self, object: ObjNo) -> bool {
        self.visible(object)
    }

    fn touchable(&self, object: ObjNo) -> bool {
        self.touchable(object)
    }

    fn encloses(&self, holder: ObjNo, object: ObjNo) -> bool {
        self.encloses(holder, object)
    }
}

impl GroundMut for World {
    ghost past = { λ w. w.past };

    fn set_flag(&mut self, object: ObjNo, property: u8, value: bool) -> Result<(), WorldFault> {
        self.set_flag(object, property, value)
    }

    fn set_number(&mut self, object: ObjNo, property: u8, value: i32) -> Result<(), WorldFault> {
        self.set_number(object, property, value)
    }

    fn set_value(&mut self, object: ObjNo, kind: u8, value: u8) -> Result<(), WorldFault> {
        self.set_value(object, kind, value)
    }

    fn set_variable(&mut self, variable: u8, value: i32) -> Result<(), WorldFault> {
        self.set_variable(variable, value)
    }

    fn set_scene(&mut self, scene: u8, now: SceneNow) -> Result<(), WorldFault> {
        self.set_scene(scene, now)
    }

    fn put(&mut self, object: ObjNo, relation: Rel, holder: ObjNo) -> Result<(), WorldFault> {
        self.put(object, relation, holder)
    }

    fn take_out(&mut self, object: ObjNo) -> Result<(), WorldFault> {
        self.take_out(object)
    }

    fn end_story(&mut self, text: TextBytes) -> Result<(), WorldFault> {
        self.end_story(text)
    }
}
