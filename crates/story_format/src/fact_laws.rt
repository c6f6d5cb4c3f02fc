//! What holds of where objects begin, whatever the story.
ghost use Rattle.std.specs.Prelude.{◌≡◌, ◌<◌, ◌≤◌, ℕ, Some, length};
ghost use Rattle.world_meaning.specs.Chains.{IsTree};
ghost use Rattle.world_meaning.specs.Standing.{place_at};
ghost use Rattle.world_meaning.specs.declared.place.Place.{Place};
ghost use Rattle.world_meaning.specs.declared.place.Rel.TheVariants.{In};
ghost use Rattle.story_format.specs.Facts.{start_of};
ghost use Rattle.story_format.specs.Placed.{places_in};
ghost use Rattle.story_format.specs.Spells.{IsStory};
ghost use Rattle.story_format.specs.declared.tables.Tables.{Tables};

/// As a story begins no object stands in itself, each holder is an object of the story, and the player is directly in a
/// room. There are 1,000 objects at most.
pub fn stories_begin_in_order()
    ensures few { (tables : Tables) → IsStory tables → length tables.objects ≤ 1000 }
    ensures tree { (tables : Tables) → IsStory tables → IsTree (place_at (places_in tables.objects)) }
    ensures holders { (tables : Tables) (thing : ℕ) (place : Place) → IsStory tables → place_at (places_in tables.objects) thing ≡ Some place → place.holder < length tables.objects }
    ensures player { (tables : Tables) → IsStory tables → place_at (places_in tables.objects) 0 ≡ Some (record { relation = In; holder = start_of tables }) }
{}
