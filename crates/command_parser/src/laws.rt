//! What holds of commands whatever the grammar.
ghost use Rattle.std.specs.Prelude.{◌≡◌, ℕ, Bool, List, [], ◌∷◌, None, Option, codes, true};
ghost use Rattle.world_meaning.specs.Texts.{empty_text};
ghost use Rattle.play_meaning.specs.Commands.{means_all, read};
ghost use Rattle.play_meaning.specs.Games.{ActsAll, Question, Quit, Says, Undo};
ghost use Rattle.play_meaning.specs.Grammar.{Grammar, Line};
ghost use Rattle.command_parser.specs.Readings.{told};
ghost use Rattle.command_parser.specs.declared.reading.Reading.{Reading};

/// No words are begged pardon for, whatever is asked; `undo`, `quit` and `q` alone, where nothing is asked, are no commands of
/// the grammar's, even if a line of it says so.
pub fn plain_lines_are_read()
    ensures empty { (g : Grammar) (question : Option Question) (sees : ℕ → Bool) → read g question sees [] ≡ Says empty_text }
    ensures undo { (g : Grammar) (sees : ℕ → Bool) → read g None sees (codes "undo" ∷ []) ≡ Undo }
    ensures quit { (g : Grammar) (sees : ℕ → Bool) → read g None sees (codes "quit" ∷ []) ≡ Quit }
    ensures q { (g : Grammar) (sees : ℕ → Bool) → read g None sees (codes "q" ∷ []) ≡ Quit }
{}

/// Where nothing is asked, a command that says the first line of the grammar, one of taking or dropping a thing, of all things
/// is tried with all of them, whatever goes by `all` or `everything` and whatever the player sees.
pub fn all_is_read()
    ensures { (g : Grammar) (sees : ℕ → Bool) (words : List (List ℕ)) (line : Line) (lines : List Line) → g.lines ≡ line ∷ lines → means_all words line ≡ true
        → read g None sees words ≡ ActsAll line.action }
{}

/// What is told of a reading tells the reading, whatever the grammar: so a command has one.
pub fn one_reading()
    ensures { (g : Grammar) (a b : Reading) → told g a ≡ told g b → a ≡ b }
{}
