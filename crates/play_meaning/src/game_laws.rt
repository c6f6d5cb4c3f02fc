//! What holds of all games.
ghost use Rattle.std.specs.Prelude.{◌≡◌, [], ◌++◌, ℕ, Bool, List, None, Ok, Option, Some, map};
ghost use Rattle.play_meaning.specs.Agreement.{Agree};
ghost use Rattle.play_meaning.specs.CommandLines.{Commands, parts_of};
ghost use Rattle.play_meaning.specs.Consulting.{ask, consult, with_nouns};
ghost use Rattle.play_meaning.specs.Doing.{Inner};
ghost use Rattle.play_meaning.specs.Games.{Game};
ghost use Rattle.play_meaning.specs.Progress.{Asked, Progress, first_decision};
ghost use Rattle.play_meaning.specs.Sessions.{MeansUndo, State, answer_of, command_answer, refuses};
ghost use Rattle.play_meaning.specs.declared.action.ActionNow.{ActionNow};
ghost use Rattle.play_meaning.specs.declared.outcome.Outcome.{Outcome};
ghost use Rattle.world_meaning.specs.declared.session.Abandon.{Abandon};
ghost use Rattle.world_meaning.specs.declared.session.ReplyKind.TheVariants.{Abandoned, Kept};

/// Games that agree, place by place, are one: so they are played alike, whatever their rules are kept as.
pub fn agreeing_games_are_one()
    ensures { (g h : Game) → Agree g h → g ≡ h }
{}

/// Behind a rule that decides no rule of the book is asked.
pub fn decisions_end_consultations()
    ensures { (g : Game) (inner : Inner) (book : ℕ) (now : ActionNow) (rules others : List ℕ) (p : Progress) (asked : Asked) (outcome : Outcome)
        → g.books book ≡ rules ++ others → first_decision (map (ask g inner book (with_nouns now)) rules) p ≡ Ok asked → asked.decision ≡ Some outcome
        → consult g inner book now p ≡ Ok asked }
{}

/// A command that is abandoned, or whose memory was refused, leaves the world, the kept worlds and the ending as they were.
pub fn abandoned_commands_change_nothing()
    ensures { (g : Game) (refused : Bool) (s : State) (words : List (List ℕ)) (reason : Abandon)
        → (command_answer g refused s words).kind ≡ Abandoned reason → (command_answer g refused s words).state ≡ record s { question = None } }
{}

/// Undo brings back the world before the last kept turn.
pub fn undo_brings_back_the_world()
    ensures { (g : Game) (refused again : Bool) (s : State) (words undo : List (List ℕ))
        → (command_answer g refused s words).kind ≡ Kept → MeansUndo g (command_answer g refused s words).state undo
        → (command_answer g again (command_answer g refused s words).state undo).state.world ≡ s.world }
{}

/// A line of one command gives what the command gives.
pub fn lines_of_one_command_are_it()
    ensures { (g : Game) (refused : Option ℕ) (s : State) (line : List ℕ) (words : List (List ℕ)) → s.ending ≡ None → parts_of line ≡ Commands words []
        → answer_of g refused s line ≡ command_answer g (refuses refused 0) s words }
{}
