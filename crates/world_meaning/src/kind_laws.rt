//! What holds of the tree of kinds: nothing is computed here.
ghost use Rattle.std.specs.Prelude.{ℕ, List, Option, Decides};
ghost use Rattle.world_meaning.specs.Kinds.{Under, is_under};

/// Steps up, as many as there are kinds, tell which kind lies under which.
pub fn steps_tell_kinds()
    ensures { (parents : List (Option ℕ)) (kind other : ℕ) → Decides (is_under parents kind other) (Under parents kind other) }
{}
