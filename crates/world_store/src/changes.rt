//! What changes the world: each setter makes one change, where the rules of the kinds and of placing allow it. What that replaces
//! is written in the log before it: where memory for that is refused, `Memory` is answered, and nothing changes.
ghost use Rattle.std.specs.Prelude.{◌≡◌, ◌<◌, ◌&&◌, ◌∷◌, ◌++◌, [], ℕ, MatchResult, Some, length, nat_lt, true};
ghost use Rattle.play_meaning.specs.Changes.{Allows, make_number, make_so, make_value, may_be_put, put_at, take_away};
ghost use Rattle.play_meaning.specs.Settings.{kinds_of};
ghost use Rattle.play_meaning.specs.Values.{is_value};
ghost use Rattle.play_meaning.specs.Worlds.{chain, end_with, next_turn, place_of, set_scene, set_variable};
ghost use Rattle.world_meaning.specs.Chains.{IsChain};
ghost use Rattle.world_meaning.specs.Placing.{can_be_held, can_hold, keeps_player, may_be_taken};
ghost use Rattle.play_meaning.specs.Turns.{most_turns};
ghost use Rattle.world_store.specs.StorySettings.{setting_of};
ghost use Rattle.world_store.specs.StoryWorlds.{changed};

use crate::World;
use crate::columns::write_at;
use crate::remembering::Was;
use crate::sight::is_in;
use play_meaning::{SceneNow, WorldFault};
use std::alloc::AllocError;
use world_meaning::{KindNo, ObjNo, Place, Rel, TextBytes};

impl World {
    /// Makes an either-or property, by its number, true of an object or not. Misplaced where the object's kind lacks it.
    #[tactic(auto, unfolding(play_meaning::specs::Worlds::set_flag))]
    pub fn set_flag(&mut self, object: ObjNo, property: u8, value: bool) -> Result<(), WorldFault>
        ensures answer { Allows result ((setting_of self.old.tables).has_flag object property) }
        ensures world { self.new ≡ changed result (make_so (setting_of self.old.tables) (Some object) property value self.old.world) self.old }
    {
        if !self.has_flag(object, property) {
            return Err(WorldFault::Misplaced);
        }
        let was = Was::Flag {
            property,
            object,
            value: self.flag(object, property),
        };
        let Ok(()) = self.log.write(was) else {
            return Err(WorldFault::Memory);
        };
        self.state.flags.set(property, object, value);
        Ok(())
    }

    /// Sets an object's number in a number property, by the property's number. Misplaced where the object's kind lacks it.
    #[tactic(auto, unfolding(play_meaning::specs::Worlds::set_number))]
    pub fn set_number(&mut self, object: ObjNo, property: u8, value: i32) -> Result<(), WorldFault>
        ensures answer { Allows result ((setting_of self.old.tables).has_number object property) }
        ensures world { self.new ≡ changed result (make_number (setting_of self.old.tables) (Some object) property value self.old.world) self.old }
    {
        if !self.has_number(object, property) {
            return Err(WorldFault::Misplaced);
        }
        let was = Was::Number {
            property,
            object,
            value: self.number(object, property),
        };
        let Ok(()) = self.log.write(was) else {
            return Err(WorldFault::Memory);
        };
        self.state.numbers.set(property, object, value);
        Ok(())
    }

    /// Whether an object's kind has a value of this kind of value, and that has a value of this number.
    fn may_have(&self, object: ObjNo, kind: u8, value: u8) -> bool
        ensures { result ≡ ((setting_of self.now.tables).has_value object kind && is_value (setting_of self.now.tables) kind value) }
    {
        self.has_value(object, kind) && self.is_value(kind, value)
    }

    /// Gives an object a value of a kind of value, by their numbers. Misplaced where the object's kind has none of them, or the kind
    /// of value has no such value.
    #[tactic(auto, unfolding(play_meaning::specs::Worlds::set_value))]
    pub fn set_value(&mut self, object: ObjNo, kind: u8, value: u8) -> Result<(), WorldFault>
        ensures answer { Allows result ((setting_of self.old.tables).has_value object kind && is_value (setting_of self.old.tables) kind value) }
        ensures world { self.new ≡ changed result (make_value (setting_of self.old.tables) (Some object) kind value self.old.world) self.old }
    {
        if !self.may_have(object, kind, value) {
            return Err(WorldFault::Misplaced);
        }
        let was = Was::Valued {
            kind,
            object,
            value: self.value_number(object, kind),
        };
        let Ok(()) = self.log.write(was) else {
            return Err(WorldFault::Memory);
        };
        self.state.values.set(kind, object, value);
        Ok(())
    }

    /// Sets a variable, by its number. Misplaced where there is none.
    pub fn set_variable(&mut self, variable: u8, value: i32) -> Result<(), WorldFault>
        ensures answer { Allows result (nat_lt variable (length self.old.world.variables)) }
        ensures world { self.new ≡ changed result (set_variable variable value self.old.world) self.old }
    {
        if usize::from(variable) >= self.state.variables.len() {
            return Err(WorldFault::Misplaced);
        }
        let was = Was::Variable {
            variable,
            value: self.variable(variable),
        };
        let Ok(()) = self.log.write(was) else {
            return Err(WorldFault::Memory);
        };
        write_at(
            &mut self.state.variables,
            Some(usize::from(variable)),
            value,
        );
        Ok(())
    }

    /// Sets where a scene stands, by its number. Misplaced where there is none.
    pub fn set_scene(&mut self, scene: u8, now: SceneNow) -> Result<(), WorldFault>
        ensures answer { Allows result (nat_lt scene (length self.old.world.scenes)) }
        ensures world { self.new ≡ changed result (set_scene scene now self.old.world) self.old }
    {
        if usize::from(scene) >= self.state.scenes.len() {
            return Err(WorldFault::Misplaced);
        }
        let was = Was::Scene {
            scene,
            now: self.scene(scene),
        };
        let Ok(()) = self.log.write(was) else {
            return Err(WorldFault::Memory);
        };
        write_at(&mut self.state.scenes, Some(usize::from(scene)), now);
        Ok(())
    }

    /// Counts a turn more, if there is memory for the log; the world is as it was where there is none.
    pub fn next_turn(&mut self) -> Result<(), AllocError>
        requires { self.old.world.turns < most_turns }
        ensures { MatchResult result (λ _. self.new ≡ record self.old { world = next_turn self.old.world; past = self.old.past ++ self.old.world ∷ [] })
            (λ _. self.new ≡ self.old) }
    {
        let Ok(()) = self.log.write(Was::Turns(self.state.turns)) else {
            return Err(AllocError);
        };
        self.state.turns += 1;
        Ok(())
    }

    /// Ends the story with a text. This is always allowed.
    pub fn end_story(&mut self, text: TextBytes) -> Result<(), WorldFault>
        ensures answer { Allows result true }
        ensures world { self.new ≡ changed result (end_with text self.old.world) self.old }
    {
        let ended = self.state.ended.replace(text);
        match self.log.write(Was::Ended(ended)) {
            Ok(()) => Ok(()),
            Err(was) => {
                self.state.undo(was);
                Err(WorldFault::Memory)
            }
        }
    }

    /// Whether an object may be held: a thing, but no door.
    fn can_be_held(&self, object: ObjNo) -> bool
        ensures { result ≡ can_be_held (kinds_of (setting_of self.now.tables)) object }
    {
        self.is_of(object, KindNo::THING) && !self.is_of(object, KindNo::DOOR)
    }

    /// Whether a holder may hold things so.
    fn can_hold(&self, relation: Rel, holder: ObjNo) -> bool
        ensures { result ≡ can_hold (kinds_of (setting_of self.now.tables)) relation holder }
    {
        match relation {
            Rel::In => self.is_of(holder, KindNo::ROOM) || self.is_of(holder, KindNo::CONTAINER),
            Rel::On => self.is_of(holder, KindNo::SUPPORTER),
            Rel::Carried => self.is_of(holder, KindNo::PERSON),
            Rel::Worn => self.is_of(holder, KindNo::PERSON),
            Rel::Part => self.is_of(holder, KindNo::THING),
        }
    }

    /// Whether the player stays directly in a room where an object is put somewhere.
    fn keeps_player(&self, object: ObjNo, relation: Rel, holder: ObjNo) -> bool
        ensures { result ≡ keeps_player (kinds_of (setting_of self.now.tables)) object (record { relation = relation; holder = holder }) }
    {
        object.get() != 0 || (is_in(relation) && self.is_of(holder, KindNo::ROOM))
    }

    /// Whether an object may be put somewhere.
    #[tactic(auto, unfolding(play_meaning::specs::Changes::may_be_put))]
    pub fn may_be_put(&self, object: ObjNo, relation: Rel, holder: ObjNo) -> bool
        ensures answer { result ≡ may_be_put (setting_of self.now.tables) self.now.world object (record { relation = relation; holder = holder }) }
        ensures ends { (other : ℕ) → IsChain (place_of self.now.world) other (chain self.now.world other) }
    {
        let enclosed = self.encloses(object, holder);
        self.can_be_held(object)
            && self.can_hold(relation, holder)
            && self.keeps_player(object, relation, holder)
            && !(object.get() == holder.get() || enclosed)
    }

    /// Puts an object somewhere. Misplaced where the kinds don't allow it, the player would not be directly in a room, or
    /// the object would come to stand in itself.
    pub fn put(&mut self, object: ObjNo, relation: Rel, holder: ObjNo) -> Result<(), WorldFault>
        ensures answer { Allows result (may_be_put (setting_of self.old.tables) self.old.world object (record { relation = relation; holder = holder })) }
        ensures world { self.new ≡ changed result (put_at (setting_of self.old.tables) object (record { relation = relation; holder = holder }) self.old.world) self.old }
    {
        if !self.may_be_put(object, relation, holder) {
            return Err(WorldFault::Misplaced);
        }
        let place = self.holder(object);
        let Ok(()) = self.log.write(Was::Placed { object, place }) else {
            return Err(WorldFault::Memory);
        };
        self.state
            .tree
            .move_to(object, Some(Place { relation, holder }));
        Ok(())
    }

    /// Takes an object away from where it is, so that it is nowhere. Misplaced where it is no thing, a door or the player.
    pub fn take_out(&mut self, object: ObjNo) -> Result<(), WorldFault>
        ensures answer { Allows result (may_be_taken (kinds_of (setting_of self.old.tables)) object) }
        ensures world { self.new ≡ changed result (take_away (setting_of self.old.tables) (Some object) self.old.world) self.old }
    {
        if !self.can_be_held(object) || object.get() == 0 {
            return Err(WorldFault::Misplaced);
        }
        let place = self.holder(object);
        let Ok(()) = self.log.write(Was::Placed { object, place }) else {
            return Err(WorldFault::Memory);
        };
        self.state.tree.take_out(object);
        Ok(())
    }
}
