//! What is seen and touched in a hall with a box, a coin in it, a door and a lamp: each law computes examples
//! of light and sight. The flags say whether the box is open, whether it is transparent, whether the coin is
//! lit and whether the hall is lighted.
ghost use Rattle.std.specs.Prelude.{Bool, false, true};
ghost use Rattle.world_meaning.specs.Sight.{HasLight, IsTouchable, IsVisible};
ghost use Rattle.world_meaning.specs.SightExamples.{hall};

/// A coin in a box that is closed and opaque is hidden, if it is transparent the coin is seen but not touched,
/// and if it is open it is touched.
pub fn boxes_hide_and_keep()
    ensures opaque { (lit lighted : Bool) → IsVisible (hall false false lit lighted) 3 → ⊥ }
    ensures glass { (is_open lit : Bool) → IsVisible (hall is_open true lit true) 3 }
    ensures closed { (transparent lit lighted : Bool) → IsTouchable (hall false transparent lit lighted) 3 → ⊥ }
    ensures opened { (transparent lit : Bool) → IsTouchable (hall true transparent lit true) 3 }
{}

/// A lit coin lights a dark hall out of a box that is open or transparent, and out of no other.
pub fn light_comes_from_inside()
    ensures opened { (transparent lighted : Bool) → HasLight (hall true transparent true lighted) }
    ensures glass { (is_open lighted : Bool) → HasLight (hall is_open true true lighted) }
    ensures opaque { (lit : Bool) → HasLight (hall false false lit false) → ⊥ }
    ensures unlit { (is_open transparent : Bool) → HasLight (hall is_open transparent false false) → ⊥ }
{}

/// In the dark only what the player carries is seen: neither the box nor the door is, as they are in light.
pub fn the_dark_hides()
    ensures carried { (is_open transparent lit lighted : Bool) → IsTouchable (hall is_open transparent lit lighted) 5 }
    ensures dark_box { (is_open transparent : Bool) → IsVisible (hall is_open transparent false false) 2 → ⊥ }
    ensures light_box { (is_open transparent lit : Bool) → IsTouchable (hall is_open transparent lit true) 2 }
    ensures dark_door { (is_open transparent : Bool) → IsVisible (hall is_open transparent false false) 4 → ⊥ }
    ensures light_door { (is_open transparent lit : Bool) → IsTouchable (hall is_open transparent lit true) 4 }
    ensures part_of_door { (is_open transparent lit lighted : Bool) → IsVisible (hall is_open transparent lit lighted) 8 → ⊥ }
{}

/// The player, the location and the directions are seen at any time and no other room is; of these the player
/// alone is touched.
pub fn places_are_seen()
    ensures player { (is_open transparent lit lighted : Bool) → IsTouchable (hall is_open transparent lit lighted) 0 }
    ensures location { (is_open transparent lit lighted : Bool) → IsVisible (hall is_open transparent lit lighted) 1 }
    ensures elsewhere { (is_open transparent lit lighted : Bool) → IsVisible (hall is_open transparent lit lighted) 6 → ⊥ }
    ensures direction { (is_open transparent lit lighted : Bool) → IsVisible (hall is_open transparent lit lighted) 7 }
    ensures untouched_location { (is_open transparent lit lighted : Bool) → IsTouchable (hall is_open transparent lit lighted) 1 → ⊥ }
    ensures untouched_direction { (is_open transparent lit lighted : Bool) → IsTouchable (hall is_open transparent lit lighted) 7 → ⊥ }
{}
