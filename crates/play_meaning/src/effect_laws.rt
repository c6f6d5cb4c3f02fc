//! Which answers have the effect of a standard rule: what they must say and change.
ghost use Rattle.std.specs.Prelude.{◌≡◌, ℕ, true, false, Some, codes};
ghost use Rattle.play_meaning.specs.Effects.{HasEffectOf, changing, refusing, saying, silence, trying};
ghost use Rattle.play_meaning.specs.Saying.{Telling};
ghost use Rattle.play_meaning.specs.Settings.{scenery_flag};
ghost use Rattle.play_meaning.specs.Trees.{First};
ghost use Rattle.play_meaning.specs.Truth.{of_some};
ghost use Rattle.play_meaning.specs.Turns.{look_round};
ghost use Rattle.play_meaning.specs.Values.{has_quality};
ghost use Rattle.play_meaning.specs.Worlds.{World};
ghost use Rattle.play_meaning.specs.declared.action.ActionNow.{ActionNow};
ghost use Rattle.play_meaning.specs.declared.change.Change.TheVariants.{Put};
ghost use Rattle.world_meaning.specs.Texts.{said};
ghost use Rattle.world_meaning.specs.declared.place.Rel.TheVariants.{Carried};

/// That scenery can't be taken is what the rule says of scenery, and of nothing else: an answer that says nothing of scenery has
/// not the rule's effect. The rules that take, report and look do no more and no less.
pub fn effects_are_what_rules_do()
    ensures scenery { (t : Telling) (w : World) (now : ActionNow) → of_some now.noun (has_quality t.setting w scenery_flag First) ≡ true
        → HasEffectOf 13 t w now (refusing (said (codes "That is hardly portable."))) }
    ensures unsaid { (t : Telling) (w : World) (now : ActionNow) → of_some now.noun (has_quality t.setting w scenery_flag First) ≡ true
        → HasEffectOf 13 t w now silence → ⊥ }
    ensures portable { (t : Telling) (w : World) (now : ActionNow) → of_some now.noun (has_quality t.setting w scenery_flag First) ≡ false
        → HasEffectOf 13 t w now silence }
    ensures taken { (t : Telling) (w : World) (now : ActionNow) (o : ℕ) → now.noun ≡ Some o → HasEffectOf 15 t w now (changing (Put o Carried 0)) }
    ensures reported { (t : Telling) (w : World) (now : ActionNow) → HasEffectOf 16 t w now (saying (said (codes "Taken."))) }
    ensures looked { (t : Telling) (w : World) (now : ActionNow) → HasEffectOf 42 t w now (trying look_round) }
{}
