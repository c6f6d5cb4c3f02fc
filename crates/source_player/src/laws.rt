//! What holds for who compiles a source, loads its story and plays it line by line: it is what the source's sentences mean.
ghost use Rattle.std.specs.Prelude.{ℕ, List};
ghost use Rattle.source_player.specs.OneSession.{HaveOneSession};
ghost use Rattle.story_file.specs.Compilations.{IsCompiled, game_meant};
ghost use Rattle.story_format.specs.Spells.{Spells};
ghost use Rattle.story_format.specs.declared.tables.Tables.{Tables};
ghost use Rattle.world_store.specs.StoryPlay.{game_in_play};

/// The story that compiled bytes spell, whose game `Session::start` begins, has the opening and the answers of the game of the tale
/// that the source's sentences mean.
pub fn compiled_stories_are_played_as_meant()
    ensures { (source bytes : List ℕ) (compiled : IsCompiled source bytes) (story : Tables) → Spells bytes story → HaveOneSession (game_in_play story) (game_meant compiled.tale compiled.said) }
{}
