//! What holds of the play of stories that are compiled: it is that of the tale that the source means, rule by rule.
ghost use Rattle.std.specs.Prelude.{◌≡◌, ℕ, List, Option};
ghost use Rattle.play_meaning.specs.Games.{Game};
ghost use Rattle.play_meaning.specs.Scripts.{game_of};
ghost use Rattle.play_meaning.specs.Sessions.{State, opened};
ghost use Rattle.play_meaning.specs.Transcripts.{exchanges};
ghost use Rattle.story_format.specs.Contents.{Contents};
ghost use Rattle.story_format.specs.Holding.{AreHeld, IsHeld};
ghost use Rattle.story_format.specs.Making.{tables_of};
ghost use Rattle.story_format.specs.TaleScripts.{whole_script};
ghost use Rattle.world_meaning.specs.declared.tale.Tale.{Tale};
ghost use Rattle.action_stages.specs.Alike.{ArePlayedAlike};
ghost use Rattle.world_store.specs.StoryPlay.{game_in_play};

/// The game of a tale's tables, whose rules are codes and whose rulebooks are stored in their order, is played as the tale's own,
/// whose rules are what its sentences say: rulebooks and actions come to the same, however deep they are nested, and its scenes begin
/// and end on the same.
pub fn stories_are_played_as_their_tales()
    ensures { (t : Tale) (said : Contents) → IsHeld t → AreHeld t said → ArePlayedAlike (game_in_play (tables_of t said)) (game_of (whole_script t said)) }
{}

/// Games that are played alike have the same opening, and the same answers to the same lines.
pub fn games_alike_have_one_session()
    ensures openings { (g h : Game) → ArePlayedAlike g h → opened g ≡ opened h }
    ensures answers { (g h : Game) → ArePlayedAlike g h → (refusals : List (Option ℕ)) (s : State) (lines : List (List ℕ)) → exchanges g refusals s lines ≡ exchanges h refusals s lines }
{}
