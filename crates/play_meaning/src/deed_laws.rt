//! What looking and going come to in a plain story, one without rules, listings, scenes or actions of its own: consulting
//! the standard rules, rule by rule, makes of each of them one deed.
ghost use Rattle.std.specs.Prelude.{◌≡◌, ℕ, None, Some};
ghost use Rattle.play_meaning.specs.Attempts.{next};
ghost use Rattle.play_meaning.specs.Deeds.{go, going_to, look};
ghost use Rattle.play_meaning.specs.PlainStories.{PlainStory, game_of_plain};
ghost use Rattle.play_meaning.specs.PlainTales.{IsPlain, story_of_script};
ghost use Rattle.play_meaning.specs.Progress.{fresh};
ghost use Rattle.play_meaning.specs.Scripts.{Script, game_of};
ghost use Rattle.play_meaning.specs.Seeing.{root_of};
ghost use Rattle.play_meaning.specs.Turns.{count_turn, look_round, opening, perform, turn};
ghost use Rattle.play_meaning.specs.Worlds.{World};
ghost use Rattle.world_meaning.specs.Sight.{direction};

/// Looking says in light the room's name, its description and what can be seen there, and marks it visited; else that it
/// is dark. A description that abandons play abandons the look.
pub fn looking_is_one_deed()
    ensures { (k : PlainStory) (w : World) → perform (game_of_plain k) look_round (fresh w) ≡ look k (fresh w) }
{}

/// Going in a direction finds a closed door or no way, or takes the player to the room beyond, where the rules of placing
/// allow it, to look round.
pub fn going_is_one_deed()
    ensures { (k : PlainStory) (way : ℕ) (w : World) → root_of k.setting way ≡ Some direction
        → perform (game_of_plain k) (going_to way) (fresh w) ≡ go k way (fresh w) }
{}

/// A turn is its deed, counted; and the story opens with a look round.
pub fn plain_turns_are_deeds()
    ensures opening { (k : PlainStory) → k.start.ended ≡ None → opening (game_of_plain k) (fresh k.start) ≡ look k (fresh k.start) }
    ensures looking { (k : PlainStory) (w : World) → w.ended ≡ None → turn (game_of_plain k) look_round (fresh w) ≡ next (look k (fresh w)) count_turn }
    ensures going { (k : PlainStory) (way : ℕ) (w : World) → root_of k.setting way ≡ Some direction → w.ended ≡ None
        → turn (game_of_plain k) (going_to way) (fresh w) ≡ next (go k way (fresh w)) count_turn }
{}

/// The game of a script without rules, scenes or actions of its own is that of the plain story that it tells.
pub fn plain_scripts_tell_plain_stories()
    ensures { (script : Script) → IsPlain script → game_of script ≡ game_of_plain (story_of_script script) }
{}
