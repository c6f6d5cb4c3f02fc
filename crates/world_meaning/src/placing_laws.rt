//! What follows from the definition of what may be put where.
ghost use Rattle.std.specs.Prelude.{◌≡◌, ℕ, IsTrue, Option};
ghost use Rattle.world_meaning.specs.Placing.{Kinds, MayBePut};
ghost use Rattle.world_meaning.specs.declared.place.Place.{Place};
ghost use Rattle.world_meaning.specs.declared.place.Rel.TheVariants.{In};
ghost use Rattle.world_meaning.specs.declared.place.Rel.{Rel};

/// The player goes into rooms alone, no door moves, and nothing is put into itself.
pub fn placing_keeps_its_rules()
    ensures player { (kinds : Kinds) (place : ℕ → Option Place) (to : Place) → MayBePut kinds place 0 to
        → (to.relation ≡ In) × IsTrue (kinds.is_room to.holder) }
    ensures doors { (kinds : Kinds) (place : ℕ → Option Place) (object : ℕ) (to : Place)
        → IsTrue (kinds.is_door object) → MayBePut kinds place object to → ⊥ }
    ensures itself { (kinds : Kinds) (place : ℕ → Option Place) (object : ℕ) (relation : Rel)
        → MayBePut kinds place object (record { relation = relation; holder = object }) → ⊥ }
{}
