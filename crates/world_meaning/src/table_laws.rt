//! The tables of directions, kinds and either-or properties hold the rows of the language, each written out: definitions read the tables
//! too, so that a wrong row would move with them.
ghost use Rattle.std.specs.Option.{option_map};
ghost use Rattle.std.specs.Prelude.{◌≡◌, map, true};
ghost use Rattle.world_meaning.specs.Directions.{all_directions, opposite_of};
ghost use Rattle.world_meaning.specs.WrittenTables.{are_distinct, written_directions, written_kinds, written_properties, written_words};
ghost use Rattle.world_meaning.specs.declared.direction.TheConstants.{DIRECTIONS};
ghost use Rattle.world_meaning.specs.declared.kinds.TheConstants.{KINDS, PROPERTIES};

/// The directions by number; no word stands for two of them, and what leads back from the way back is the direction itself.
#[tactic(auto, unfolding(crate::specs::Directions::opposite_of))]
pub fn directions_are_as_written()
    ensures rows { map (λ row. (row.0.now, (row.1.now, row.2))) DIRECTIONS ≡ written_directions }
    ensures apart { are_distinct (written_words written_directions) ≡ true }
    ensures back { map (λ direction. opposite_of (opposite_of direction)) all_directions ≡ all_directions }
{}

/// The built-in kinds by number.
pub fn kinds_are_as_written()
    ensures { map (λ row. (row.0.now, row.1)) KINDS ≡ written_kinds }
{}

/// The built-in either-or properties by number.
pub fn properties_are_as_written()
    ensures { map (λ row. (row.0.now, (option_map (λ name. name.now) row.1, (row.2.now, row.3.now)))) PROPERTIES ≡ written_properties }
{}
