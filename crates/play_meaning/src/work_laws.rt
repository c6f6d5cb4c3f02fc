//! What holds of the work of a tale's game.
ghost use Rattle.std.specs.Prelude.{◌≡◌, ◌≤◌, ℕ, List, Ok};
ghost use Rattle.play_meaning.specs.Progress.{Progress, most_work};
ghost use Rattle.play_meaning.specs.Scripts.{Script, game_of};
ghost use Rattle.play_meaning.specs.Turns.{opening, perform, turn, turn_upon};
ghost use Rattle.play_meaning.specs.declared.action.ActionNow.{ActionNow};

/// No action, no turn and no opening that is kept did more than the most work.
pub fn work_is_bounded()
    ensures actions { (script : Script) (now : ActionNow) (p q : Progress) → p.work ≤ most_work → perform (game_of script) now p ≡ Ok q → q.work ≤ most_work }
    ensures turns { (script : Script) (now : ActionNow) (p q : Progress) → p.work ≤ most_work → turn (game_of script) now p ≡ Ok q → q.work ≤ most_work }
    ensures all { (script : Script) (action : ℕ) (objects : List ℕ) (p q : Progress) → p.work ≤ most_work → turn_upon (game_of script) action objects p ≡ Ok q → q.work ≤ most_work }
    ensures openings { (script : Script) (p q : Progress) → p.work ≤ most_work → opening (game_of script) p ≡ Ok q → q.work ≤ most_work }
{}
