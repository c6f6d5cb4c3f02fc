//! What holds of every story in play, of its worlds and their changes, and of the dark.
ghost use Rattle.std.specs.Prelude.{◌≡◌, ◌≢◌, ◌⊎◌, ◌<◌, ◌≤◌, ◌-◌, ◌++◌, ℕ, ℤ, Bool, true, false, List, Option, Some, length};
ghost use Rattle.play_meaning.specs.PlainTales.{story_of_script};
ghost use Rattle.play_meaning.specs.Seeing.{encloses, has_light, is_visible, root_of};
ghost use Rattle.play_meaning.specs.Settings.{Setting, direction_kind, thing_kind};
ghost use Rattle.play_meaning.specs.StoryWorlds.{IsWorldOf};
ghost use Rattle.play_meaning.specs.Worlds.{World as PlayWorld, is_true_of, number_of, place_of, scene_of, set_flag, set_number, set_place, set_scene, set_value, set_variable, value_of, variable_of};
ghost use Rattle.play_meaning.specs.declared.scene.SceneNow.{SceneNow};
ghost use Rattle.story_format.specs.Contents.{Contents};
ghost use Rattle.story_format.specs.Holding.{AreHeld, IsHeld};
ghost use Rattle.story_format.specs.Making.{tables_of};
ghost use Rattle.story_format.specs.TaleScripts.{whole_script};
ghost use Rattle.world_meaning.specs.Sight.{direction};
ghost use Rattle.world_meaning.specs.declared.place.Place.{Place};
ghost use Rattle.world_meaning.specs.declared.tale.Tale.{Tale};
ghost use Rattle.world_store.specs.AskedChanges.{AreSetters, Asked, all_changed};
ghost use Rattle.world_store.specs.StoryGames.{plain_story};
ghost use Rattle.world_store.specs.StorySettings.{setting_of};
ghost use Rattle.world_store.specs.StoryWorlds.{AreKept, StoryWorld, let_go, reverted, worlds};

use crate::World;
use world_meaning::ObjNo;

/// A world is one of its story: each chain of holders ends, the player is somewhere, and properties are true of objects
/// that are there. So what is computed of sight in it is what is said of chains.
pub fn worlds_are_of_their_stories(world: &World)
    ensures { IsWorldOf (setting_of world.now.tables) world.now.world }
{
    let _ = world.chain(ObjNo::new(0));
    let _ = &world.state;
}

/// What is of kind direction is a direction, and no thing or room.
pub fn directions_are_directions(world: &World)
    ensures { (o : ℕ) → (setting_of world.now.tables).is_of o direction_kind ≡ true → root_of (setting_of world.now.tables) o ≡ Some direction }
{
    let _ = &world.state;
}

/// The tables of a tale that a story file holds, and of which it says this, give the game of the tale: the same setting,
/// start, descriptions and reading of commands, by its own lines and words. The rules and what scenes begin and end on are in neither.
pub fn tables_give_their_tales_game()
    ensures { (t : Tale) (c : Contents) → IsHeld t → AreHeld t c → plain_story (tables_of t c) ≡ story_of_script (whole_script t c) }
{}

/// A change of one thing leaves the others.
pub fn changes_leave_others()
    ensures places { (w : PlayWorld) (o other : ℕ) (place : Option Place) → o ≢ other → place_of (set_place o place w) other ≡ place_of w other }
    ensures flags { (w : PlayWorld) (property o of x : ℕ) (value : Bool) → (property ≢ of) ⊎ (o ≢ x) → is_true_of (set_flag property o value w) of x ≡ is_true_of w of x }
    ensures numbers { (w : PlayWorld) (property o of x : ℕ) (value : ℤ) → (property ≢ of) ⊎ (o ≢ x) → number_of (set_number property o value w) of x ≡ number_of w of x }
    ensures values { (w : PlayWorld) (q o of x value : ℕ) → (q ≢ of) ⊎ (o ≢ x) → value_of (set_value q o value w) of x ≡ value_of w of x }
{}

/// A mark brings the story back that it was taken of, whatever was added to its log since: after any changes that were asked for,
/// refused ones among them.
pub fn marks_bring_back_the_world()
    ensures added { (old new : StoryWorld) (more : List PlayWorld) → new.tables ≡ old.tables → worlds new ≡ worlds old ++ more
        → reverted (length old.past) new ≡ old }
    ensures asked { (s : StoryWorld) (changes : List Asked) → AreSetters changes s → reverted (length s.past) (all_changed changes s) ≡ s }
{}

/// Where the changes in front of a mark are let go of, a later mark brings back the same world.
pub fn what_is_let_go_of_changes_nothing()
    ensures { (s : StoryWorld) (first mark : ℕ) → first ≤ mark → mark ≤ length s.past → reverted (mark - first) (let_go first s) ≡ let_go first (reverted mark s) }
{}

/// In the dark nothing is visible of things but the player and what the player holds.
pub fn the_dark_hides()
    ensures { (s : Setting) (w : PlayWorld) (o : ℕ) → has_light s w ≡ false → s.is_of o thing_kind ≡ true → is_visible s w o ≡ true
        → (o ≡ 0) ⊎ (encloses w 0 o ≡ true) }
{}

/// What is known of any world that is handed in: it says of each object where it is, whether each property is true of it,
/// its numbers and its values, each value being one of those that the kind of value has, and the player is directly in a room; and so did
/// the worlds before it.
pub fn worlds_are_whole(world: &World)
    ensures { AreKept world.now.tables (worlds world.now) }
{
    let _ = &world.state;
}

/// In a world of a story what is set is read: of objects that have the property or a value of the kind, of where objects are, and of the variables and
/// scenes that are there.
pub fn what_is_set_is_read(world: &World)
    ensures flags { (property o : ℕ) (value : Bool) → (setting_of world.now.tables).has_flag o property ≡ true
        → is_true_of (set_flag property o value world.now.world) property o ≡ value }
    ensures numbers { (property o : ℕ) (value : ℤ) → (setting_of world.now.tables).has_number o property ≡ true
        → number_of (set_number property o value world.now.world) property o ≡ value }
    ensures values { (q o value : ℕ) → (setting_of world.now.tables).has_value o q ≡ true
        → value_of (set_value q o value world.now.world) q o ≡ value }
    ensures places { (o : ℕ) (place : Option Place) → o < (setting_of world.now.tables).count
        → place_of (set_place o place world.now.world) o ≡ place }
    ensures variables { (variable : ℕ) (value : ℤ) → variable < length world.now.world.variables
        → variable_of (set_variable variable value world.now.world) variable ≡ value }
    ensures scenes { (scene : ℕ) (now : SceneNow) → scene < length world.now.world.scenes
        → scene_of (set_scene scene now world.now.world) scene ≡ now }
{
    let _ = &world.state;
}
