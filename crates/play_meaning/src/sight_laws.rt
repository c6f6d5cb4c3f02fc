//! What is seen, touched and lit, and what may be put where, is what is said of chains of holders.
ghost use Rattle.std.specs.Prelude.{◌≡◌, ◌↔◌, ℕ, true};
ghost use Rattle.play_meaning.specs.Changes.{may_be_put};
ghost use Rattle.play_meaning.specs.Seeing.{encloses, has_light, is_touchable, is_visible, sights_of};
ghost use Rattle.play_meaning.specs.Settings.{Setting, kinds_of};
ghost use Rattle.play_meaning.specs.StoryWorlds.{IsWorldOf};
ghost use Rattle.play_meaning.specs.Worlds.{World, place_of};
ghost use Rattle.world_meaning.specs.Chains.{Encloses};
ghost use Rattle.world_meaning.specs.Placing.{MayBePut};
ghost use Rattle.world_meaning.specs.Sight.{HasLight, IsTouchable, IsVisible};
ghost use Rattle.world_meaning.specs.declared.place.Place.{Place};

/// In a world of a story, what is computed of light, sight, touch and enclosing is so exactly where the chains say it.
pub fn sight_is_by_chains()
    ensures light { (s : Setting) (w : World) → IsWorldOf s w → (has_light s w ≡ true) ↔ HasLight (sights_of s w) }
    ensures seen { (s : Setting) (w : World) (o : ℕ) → IsWorldOf s w → (is_visible s w o ≡ true) ↔ IsVisible (sights_of s w) o }
    ensures touched { (s : Setting) (w : World) (o : ℕ) → IsWorldOf s w → (is_touchable s w o ≡ true) ↔ IsTouchable (sights_of s w) o }
    ensures enclosed { (s : Setting) (w : World) (holder o : ℕ) → IsWorldOf s w → (encloses w holder o ≡ true) ↔ Encloses (place_of w) holder o }
{}

/// In a world of a story a change may put an object somewhere exactly where the rules of placing say it: the kinds allow it, the
/// player stays directly in a room, and nothing comes to stand in itself.
pub fn placing_is_by_chains()
    ensures { (s : Setting) (w : World) (o : ℕ) (to : Place) → IsWorldOf s w → (may_be_put s w o to ≡ true) ↔ MayBePut (kinds_of s) (place_of w) o to }
{}
