//! What a rule's words are read against and may change, whatever keeps it: a story's fixed facts and its world of the moment.
use crate::{SceneNow, WorldFault};
use world_meaning::{Article, KindNo, ObjNo, Place, Rel, TextBytes};

/// A story in play that is read: what never changes of its objects, and its world. Properties, variables, scenes and kinds of value go by
/// their numbers; of a number that isn't there nothing holds, and numbers are 0.
pub trait Ground {
    ghost use Rattle.std.specs.Prelude.{◌≡◌, ◌≤◌, [], Some, slice_index_or};
    ghost use Rattle.std.specs.Option.{option_map};
    ghost use Rattle.play_meaning.specs.Grounds.{Fixed};
    ghost use Rattle.play_meaning.specs.Seeing.{encloses, has_light, is_touchable, is_visible};
    ghost use Rattle.play_meaning.specs.Turns.{most_turns};
    ghost use Rattle.play_meaning.specs.Values.{value_at, value_named};
    ghost use Rattle.play_meaning.specs.Worlds.{World, is_true_of, number_of, place_of, scene_of, variable_of};

    ghost fixed: { Self → Fixed };

    ghost world: { Self → World };

    /// How many objects there are.
    fn object_count(&self) -> u16
        ensures { result ≡ (fixed self.now).setting.count };

    /// An object's name as it is printed, without its article.
    fn name(&self, object: ObjNo) -> &[u8]
        ensures { result.now ≡ (fixed self.now).setting.name object };

    /// The article with which an object is told of.
    fn article(&self, object: ObjNo) -> Article
        ensures { result ≡ (fixed self.now).setting.article object };

    /// Whether an object is of a kind, or of one below it.
    fn is_of(&self, object: ObjNo, kind: KindNo) -> bool
        ensures { result ≡ (fixed self.now).setting.is_of object kind };

    /// Whether an object's kind has an either-or property.
    fn has_flag(&self, object: ObjNo, property: u8) -> bool
        ensures { result ≡ (fixed self.now).setting.has_flag object property };

    /// Whether an object's kind has a number property.
    fn has_number(&self, object: ObjNo, property: u8) -> bool
        ensures { result ≡ (fixed self.now).setting.has_number object property };

    /// Whether an object is described.
    fn has_description(&self, object: ObjNo) -> bool
        ensures { result ≡ (fixed self.now).setting.has_description object };

    /// The code of an object's description, by its number, where it is described.
    fn description(&self, object: ObjNo) -> Option<u16>
        ensures { result ≡ (fixed self.now).descriptions object };

    /// The room to which a direction leads from a room, if it does.
    fn room_beyond(&self, room: ObjNo, direction: ObjNo) -> Option<ObjNo>
        ensures { result ≡ (fixed self.now).setting.room_beyond room direction };

    /// The door on the way in a direction from a room, if there is one.
    fn door_beyond(&self, room: ObjNo, direction: ObjNo) -> Option<ObjNo>
        ensures { result ≡ (fixed self.now).setting.door_beyond room direction };

    /// A string of the story, by its number; no bytes where there is none.
    fn string(&self, string: u16) -> &[u8]
        ensures { result.now ≡ slice_index_or (fixed self.now).strings string [] };

    /// Where an object is, if it is anywhere.
    fn holder(&self, object: ObjNo) -> Option<Place>
        ensures { result ≡ place_of (world self.now) object };

    /// Whether an either-or property is true of an object.
    fn flag(&self, object: ObjNo, property: u8) -> bool
        ensures { result ≡ is_true_of (world self.now) property object };

    /// An object's number in a number property.
    fn number(&self, object: ObjNo, property: u8) -> i32
        ensures { result ≡ number_of (world self.now) property object };

    /// An object's value of a kind of value, by its number, where its kind has one.
    fn value(&self, object: ObjNo, kind: u8) -> Option<u8>
        ensures { result ≡ value_at (fixed self.now).setting (world self.now) kind (Some object) };

    /// The name of a value of a kind of value; no bytes where there is none.
    fn value_name(&self, kind: u8, value: u8) -> &[u8]
        ensures { result.now ≡ value_named (fixed self.now).setting kind value };

    /// What a variable is.
    fn variable(&self, variable: u8) -> i32
        ensures { result ≡ variable_of (world self.now) variable };

    /// Where a scene stands.
    fn scene(&self, scene: u8) -> SceneNow
        ensures { result ≡ scene_of (world self.now) scene };

    /// The turn count, from 1; a number of the language.
    fn turns(&self) -> u32
        ensures count { result ≡ (world self.now).turns }
        ensures most { result ≤ most_turns };

    /// The text with which the story ended, if it has.
    fn ended(&self) -> Option<&[u8]>
        ensures { option_map (λ text. text.now) result ≡ (world self.now).ended };

    /// Whether there is light where the player is.
    fn lit_here(&self) -> bool
        ensures { result ≡ has_light (fixed self.now).setting (world self.now) };

    /// Whether the player sees an object.
    fn visible(&self, object: ObjNo) -> bool
        ensures { result ≡ is_visible (fixed self.now).setting (world self.now) object };

    /// Whether the player can touch an object.
    fn touchable(&self, object: ObjNo) -> bool
        ensures { result ≡ is_touchable (fixed self.now).setting (world self.now) object };

    /// Whether a holder holds an object, at any depth.
    fn encloses(&self, holder: ObjNo, object: ObjNo) -> bool
        ensures { result ≡ encloses (world self.now) holder object };
}

/// A story in play that may be changed, and that remembers the worlds before its changes. Each call makes its one change; or it
/// answers `Misplaced`, exactly where the kinds, the rules of placing or the numbers don't allow the change, or `Memory`, where
/// that for remembering was refused, and changes nothing then.
pub trait GroundMut: Ground {
    ghost use Rattle.std.specs.Prelude.{◌≡◌, ◌&&◌, List, Some, length, nat_lt, true};
    ghost use Rattle.play_meaning.specs.Changes.{Allows, behind, make_number, make_so, make_value, may_be_put, put_at, remembered, take_away};
    ghost use Rattle.play_meaning.specs.Settings.{kinds_of};
    ghost use Rattle.play_meaning.specs.Values.{is_value};
    ghost use Rattle.play_meaning.specs.Worlds.{World, end_with, set_scene, set_variable};
    ghost use Rattle.world_meaning.specs.Placing.{may_be_taken};

    /// The worlds before each change that was made, the oldest in front.
    ghost past: { Self → List World };

    /// Makes an either-or property true of an object or not.
    fn set_flag(&mut self, object: ObjNo, property: u8, value: bool) -> Result<(), WorldFault>
        ensures answer { Allows result ((Self.fixed self.old).setting.has_flag object property) }
        ensures world { Self.world self.new ≡ behind result (make_so (Self.fixed self.old).setting (Some object) property value (Self.world self.old)) (Self.world self.old) }
        ensures past { past self.new ≡ remembered result (Self.world self.old) (past self.old) }
        ensures fixed { Self.fixed self.new ≡ Self.fixed self.old };

    /// Sets an object's number in a number property.
    fn set_number(&mut self, object: ObjNo, property: u8, value: i32) -> Result<(), WorldFault>
        ensures answer { Allows result ((Self.fixed self.old).setting.has_number object property) }
        ensures world { Self.world self.new ≡ behind result (make_number (Self.fixed self.old).setting (Some object) property value (Self.world self.old)) (Self.world self.old) }
        ensures past { past self.new ≡ remembered result (Self.world self.old) (past self.old) }
        ensures fixed { Self.fixed self.new ≡ Self.fixed self.old };

    /// Gives an object a value of a kind of value.
    fn set_value(&mut self, object: ObjNo, kind: u8, value: u8) -> Result<(), WorldFault>
        ensures answer { Allows result ((Self.fixed self.old).setting.has_value object kind && is_value (Self.fixed self.old).setting kind value) }
        ensures world { Self.world self.new ≡ behind result (make_value (Self.fixed self.old).setting (Some object) kind value (Self.world self.old)) (Self.world self.old) }
        ensures past { past self.new ≡ remembered result (Self.world self.old) (past self.old) }
        ensures fixed { Self.fixed self.new ≡ Self.fixed self.old };

    /// Sets a variable.
    fn set_variable(&mut self, variable: u8, value: i32) -> Result<(), WorldFault>
        ensures answer { Allows result (nat_lt variable (length (Self.world self.old).variables)) }
        ensures world { Self.world self.new ≡ behind result (set_variable variable value (Self.world self.old)) (Self.world self.old) }
        ensures past { past self.new ≡ remembered result (Self.world self.old) (past self.old) }
        ensures fixed { Self.fixed self.new ≡ Self.fixed self.old };

    /// Sets where a scene stands.
    fn set_scene(&mut self, scene: u8, now: SceneNow) -> Result<(), WorldFault>
        ensures answer { Allows result (nat_lt scene (length (Self.world self.old).scenes)) }
        ensures world { Self.world self.new ≡ behind result (set_scene scene now (Self.world self.old)) (Self.world self.old) }
        ensures past { past self.new ≡ remembered result (Self.world self.old) (past self.old) }
        ensures fixed { Self.fixed self.new ≡ Self.fixed self.old };

    /// Puts an object somewhere.
    fn put(&mut self, object: ObjNo, relation: Rel, holder: ObjNo) -> Result<(), WorldFault>
        ensures answer { Allows result (may_be_put (Self.fixed self.old).setting (Self.world self.old) object (record { relation = relation; holder = holder })) }
        ensures world { Self.world self.new ≡ behind result (put_at (Self.fixed self.old).setting object (record { relation = relation; holder = holder }) (Self.world self.old))
            (Self.world self.old) }
        ensures past { past self.new ≡ remembered result (Self.world self.old) (past self.old) }
        ensures fixed { Self.fixed self.new ≡ Self.fixed self.old };

    /// Takes an object away from where it is, so that it is nowhere.
    fn take_out(&mut self, object: ObjNo) -> Result<(), WorldFault>
        ensures answer { Allows result (may_be_taken (kinds_of (Self.fixed self.old).setting) object) }
        ensures world { Self.world self.new ≡ behind result (take_away (Self.fixed self.old).setting (Some object) (Self.world self.old)) (Self.world self.old) }
        ensures past { past self.new ≡ remembered result (Self.world self.old) (past self.old) }
        ensures fixed { Self.fixed self.new ≡ Self.fixed self.old };

    /// Ends the story with a text. This is always allowed.
    fn end_story(&mut self, text: TextBytes) -> Result<(), WorldFault>
        ensures answer { Allows result true }
        ensures world { Self.world self.new ≡ behind result (end_with text (Self.world self.old)) (Self.world self.old) }
        ensures past { past self.new ≡ remembered result (Self.world self.old) (past self.old) }
        ensures fixed { Self.fixed self.new ≡ Self.fixed self.old };
}
