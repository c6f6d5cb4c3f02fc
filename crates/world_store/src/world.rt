//! The world of a story in play: how it begins, its copy, and what is read off it.
ghost use Rattle.std.specs.Prelude.{◌≡◌, ◌≤◌, ℕ, [], IfOk, Some, length, map};
ghost use Rattle.std.specs.List.{list_any, range_with_len};
ghost use Rattle.std.specs.Option.{option_map};
ghost use Rattle.play_meaning.specs.Seeing.{encloses, is_held_by};
ghost use Rattle.play_meaning.specs.Turns.{most_turns};
ghost use Rattle.play_meaning.specs.Values.{is_value, value_at};
ghost use Rattle.play_meaning.specs.Worlds.{chain, is_true_of, location_of, number_of, place_of, scene_of, value_of, variable_of};
ghost use Rattle.world_meaning.specs.Chains.{IsChain};
ghost use Rattle.story_format.specs.InPlay.{exits_of, start_flags, start_numbers, start_values};
ghost use Rattle.story_format.specs.Placed.{places_in};
ghost use Rattle.story_format.specs.Spells.{IsStory};
ghost use Rattle.world_store.specs.StartWorlds.{start_world};
ghost use Rattle.world_store.specs.StorySettings.{setting_of};

use crate::atlas::Atlas;
use crate::columns::Columns;
use crate::remembering::Log;
use crate::state::State;
use object_tree::{Chain, Tree};
use play_meaning::SceneNow;
use std::alloc::{AllocError, Global};
use std::marker::Model;
use std::rc::Rc;
use story_format::Story;
use world_meaning::{Exits, KindNo, ObjNo, Place};

/// A scene that never began.
const NOT_BEGUN: SceneNow = SceneNow {
    happens: false,
    has_begun: false,
};

/// A story in play: its world of the moment, and what each change of it replaced.
#[derive(Drop)]
pub struct World {
    pub(crate) atlas: Rc<Atlas>,
    pub(crate) state: State,
    pub(crate) log: Log,
}

impl Model for World {
    ghost use Rattle.world_store.specs.StoryWorlds.{IsStoryWorld, StoryWorld};

    ghost Value = { StoryWorld };

    ghost use Rattle.world_store.specs.Pasts.{story_world, world_of};

    ghost view = { λ w. story_world w.atlas.value (world_of w.state) w.log };

    ghost invariant = { λ w. IsStoryWorld (story_world w.atlas.value (world_of w.state) w.log) };
}

/// Which either-or properties are true of which objects as a story begins.
fn start_flags(alloc: Global, story: &Story) -> Result<Columns<bool>, AllocError>
    ensures { IfOk result (λ flags. flags ≡ map (start_flags story.now) (range_with_len 0 (length story.now.world.flags))) }
{
    let count = story.flag_count();
    let mut flags = Vec::new(alloc);
    for property in 0..count {
        let column = story.flags(alloc, property)?;
        flags.extend_from_slice(column.as_slice())?;
    }
    Ok(Columns::new(flags, story.object_count() as u16, count))
}

/// The numbers with which the objects of a story begin.
fn start_numbers(alloc: Global, story: &Story) -> Result<Columns<i32>, AllocError>
    ensures { IfOk result (λ numbers. numbers ≡ map (start_numbers story.now) (range_with_len 0 (length story.now.world.numbers))) }
{
    let count = story.number_count();
    let mut numbers = Vec::new(alloc);
    for property in 0..count {
        let column = story.numbers(alloc, property)?;
        numbers.extend_from_slice(column.as_slice())?;
    }
    Ok(Columns::new(numbers, story.object_count() as u16, count))
}

/// The values with which the objects of a story begin.
fn start_values(alloc: Global, story: &Story) -> Result<Columns<u8>, AllocError>
    ensures { IfOk result (λ values. values ≡ map (start_values story.now) (range_with_len 0 (length story.now.values.kinds))) }
{
    let count = story.value_kind_count();
    let mut values = Vec::new(alloc);
    for kind in 0..count {
        let column = story.values(alloc, kind)?;
        values.extend_from_slice(column.as_slice())?;
    }
    Ok(Columns::new(values, story.object_count() as u16, count))
}

/// The tree of a story's objects as it begins.
fn start_tree(alloc: Global, story: &Story) -> Result<Tree, AllocError>
    ensures tree { IfOk result (λ tree. tree ≡ places_in story.now.objects) }
    ensures story { IfOk result (λ tree. IsStory story.now) }
{
    let places = story.places(alloc)?;
    Tree::from_places(alloc, places.as_slice())
}

/// Whether a holder stands in a chain.
fn stands_in(chain: Chain<'_>, holder: ObjNo) -> bool
    ensures { result ≡ list_any (is_held_by holder) chain.entry }
{
    for step in chain {
        if holder.get() == step.holder.get() {
            return true;
        }
    }
    false
}

impl World {
    /// The world with which a story begins.
    #[tactic(auto, unfolding(crate::specs::StartWorlds::start_world))]
    pub fn start(alloc: Global, story: &Rc<Story>) -> Result<World, AllocError>
        ensures { IfOk result (λ world. world ≡ record { tables = story.now.value; world = start_world story.now.value; past = [] }) }
    {
        let told = story.as_ref();
        let tree = start_tree(alloc, told)?;
        let flags = start_flags(alloc, told)?;
        let numbers = start_numbers(alloc, told)?;
        let values = start_values(alloc, told)?;
        let variables = told.variables(alloc)?;
        let scenes = vec![in alloc; NOT_BEGUN; told.scene_count()]?;
        let atlas = Rc::new(alloc, Atlas::new(alloc, story)?)?;
        let state = State {
            tree,
            flags,
            numbers,
            values,
            variables,
            scenes,
            turns: 1,
            ended: None,
        };
        let log = Log::new(alloc);
        Ok(World { atlas, state, log })
    }

    /// A world that is equal to this one, of the same story. What was before it isn't known of it.
    pub fn copy(&self, alloc: Global) -> Result<World, AllocError>
        ensures { IfOk result (λ world. world ≡ record self.now { past = [] }) }
    {
        Ok(World {
            atlas: self.atlas.clone()?,
            state: self.state.copy(alloc)?,
            log: Log::new(alloc),
        })
    }

    /// The story that is played.
    pub fn story(&self) -> &Story
        ensures { result.now ≡ self.now.tables }
    {
        self.atlas.as_ref().story()
    }

    /// The story that is played, to be shared.
    pub fn shared_story(&self) -> &Rc<Story>
        ensures { result.now.value ≡ self.now.tables }
    {
        self.atlas.as_ref().shared()
    }

    /// The ways of a room, if it is one.
    pub(crate) fn exits(&self, room: ObjNo) -> Option<Exits>
        ensures { result ≡ exits_of self.now.tables room }
    {
        self.atlas.as_ref().exits(room)
    }

    /// Where an object is: its holder and how it is held, or nothing. An object that isn't there is nowhere.
    pub fn holder(&self, object: ObjNo) -> Option<Place>
        ensures { result ≡ place_of self.now.world object }
    {
        self.state.tree.holder(object)
    }

    /// The chain of an object: where it is, where its holder is, and so on.
    #[tactic(auto, unfolding(play_meaning::specs::Worlds::chain))]
    pub fn chain(&self, object: ObjNo) -> Chain<'_>
        ensures chain { result ≡ chain self.now.world object }
        ensures ends { (other : ℕ) → IsChain (place_of self.now.world) other (chain self.now.world other) }
    {
        self.state.tree.chain(object)
    }

    /// Whether an either-or property, by its number, is true of an object.
    #[tactic(auto, unfolding(play_meaning::specs::Worlds::is_true_of))]
    pub fn flag(&self, object: ObjNo, property: u8) -> bool
        ensures { result ≡ is_true_of self.now.world property object }
    {
        self.state.flags.at(property, object, false)
    }

    /// An object's number in a number property, by the property's number; 0 where its kind lacks that.
    #[tactic(auto, unfolding(play_meaning::specs::Worlds::number_of))]
    pub fn number(&self, object: ObjNo, property: u8) -> i32
        ensures { result ≡ number_of self.now.world property object }
    {
        self.state.numbers.at(property, object, 0)
    }

    /// Which of the values of a kind of value an object has, by their numbers; 0 where it has none of them.
    #[tactic(auto, unfolding(play_meaning::specs::Worlds::value_of))]
    pub(crate) fn value_number(&self, object: ObjNo, kind: u8) -> u8
        ensures { result ≡ value_of self.now.world kind object }
    {
        self.state.values.at(kind, object, 0)
    }

    /// An object's value of a kind of value, by their numbers, where its kind has one.
    pub fn value(&self, object: ObjNo, kind: u8) -> Option<u8>
        ensures { result ≡ value_at (setting_of self.now.tables) self.now.world kind (Some object) }
    {
        if self.has_value(object, kind) {
            Some(self.value_number(object, kind))
        } else {
            None
        }
    }

    /// A variable, by its number; 0 where there is none.
    pub fn variable(&self, variable: u8) -> i32
        ensures { result ≡ variable_of self.now.world variable }
    {
        match self.state.variables.get(usize::from(variable)) {
            Some(value) => *value,
            None => 0,
        }
    }

    /// Where a scene stands, by its number; it never began where there is none.
    pub fn scene(&self, scene: u8) -> SceneNow
        ensures { result ≡ scene_of self.now.world scene }
    {
        match self.state.scenes.get(usize::from(scene)) {
            Some(now) => *now,
            None => NOT_BEGUN,
        }
    }

    /// The turn count, 1 in the first turn.
    pub fn turns(&self) -> u32
        ensures count { result ≡ self.now.world.turns }
        ensures most { result ≤ most_turns }
    {
        self.state.turns
    }

    /// The text with which the story ended, if it has.
    pub fn ended(&self) -> Option<&[u8]>
        ensures { option_map (λ text. text.now) result ≡ self.now.world.ended }
    {
        match &self.state.ended {
            None => None,
            Some(text) => Some(text.as_slice()),
        }
    }

    /// The room in which the player is.
    pub fn location(&self) -> ObjNo
        ensures { location_of self.now.world ≡ Some result }
    {
        match self.state.tree.holder(ObjNo::new(0)) {
            Some(place) => place.holder,
            None => ObjNo::new(0),
        }
    }

    /// Whether an object is of a kind, or of one below it.
    #[tactic(auto, unfolding(crate::specs::StorySettings::setting_of))]
    pub fn is_of(&self, object: ObjNo, kind: KindNo) -> bool
        ensures { result ≡ (setting_of self.now.tables).is_of object kind }
    {
        self.story().is_of(object, kind)
    }

    /// Whether an object's kind has the either-or property of a number.
    #[tactic(auto, unfolding(crate::specs::StorySettings::setting_of))]
    pub fn has_flag(&self, object: ObjNo, property: u8) -> bool
        ensures { result ≡ (setting_of self.now.tables).has_flag object property }
    {
        self.story().has_flag(object, usize::from(property))
    }

    /// Whether an object's kind has the number property of a number.
    #[tactic(auto, unfolding(crate::specs::StorySettings::setting_of))]
    pub fn has_number(&self, object: ObjNo, property: u8) -> bool
        ensures { result ≡ (setting_of self.now.tables).has_number object property }
    {
        self.story().has_number(object, usize::from(property))
    }

    /// Whether an object's kind has a value of the kind of value of a number.
    #[tactic(auto, unfolding(crate::specs::StorySettings::setting_of))]
    pub fn has_value(&self, object: ObjNo, kind: u8) -> bool
        ensures { result ≡ (setting_of self.now.tables).has_value object kind }
    {
        self.story().has_value(object, usize::from(kind))
    }

    /// Whether a kind of value has a value of this number.
    #[tactic(auto, unfolding(crate::specs::StorySettings::setting_of))]
    pub(crate) fn is_value(&self, kind: u8, value: u8) -> bool
        ensures { result ≡ is_value (setting_of self.now.tables) kind value }
    {
        usize::from(value) < self.story().value_count(usize::from(kind))
    }

    /// Whether a holder holds an object, at any depth.
    #[tactic(auto, unfolding(play_meaning::specs::Seeing::encloses))]
    pub fn encloses(&self, holder: ObjNo, object: ObjNo) -> bool
        ensures answer { result ≡ encloses self.now.world holder object }
        ensures ends { (other : ℕ) → IsChain (place_of self.now.world) other (chain self.now.world other) }
    {
        stands_in(self.chain(object), holder)
    }
}
