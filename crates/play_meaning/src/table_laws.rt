//! The rulebooks that every story has are numbered as the story file has them: definitions read these numbers too, so that a wrong one
//! would move with them.
ghost use Rattle.std.specs.Prelude.{◌≡◌, [], ◌∷◌};
ghost use Rattle.play_meaning.specs.WrittenTables.{written_books};
ghost use Rattle.play_meaning.specs.declared.standard_books.TheConstants.{AFTER, BEFORE, CARRY_OUT, CHECK, EVERY_TURN, INSTEAD, PLAY_BEGINS, REPORT, SCENE_BEGINS, SCENE_ENDS};

/// The rulebooks before, instead, check, carry out, after, report, every turn, when play begins, and when the first scene begins and
/// ends, by number.
pub fn books_are_as_written()
    ensures { BEFORE ∷ INSTEAD ∷ CHECK ∷ CARRY_OUT ∷ AFTER ∷ REPORT ∷ EVERY_TURN ∷ PLAY_BEGINS ∷ SCENE_BEGINS ∷ SCENE_ENDS ∷ [] ≡ written_books }
{}
