//! A story in play, as commands are read against it: its objects with their words, the lines of its grammar, and what the
//! player sees.

use command_grammar::Token;
use command_parser::Commands;
use play_meaning::ActNo;
use world_meaning::{KindNo, ObjNo};
use world_store::World;

/// The world as it is, with its story: what `command_parser` reads commands against.
#[derive(Clone, Copy)]
pub struct InPlay<'a> {
    pub world: &'a World,
}

impl Commands for InPlay<'_> {
    ghost use Rattle.play_meaning.specs.Seeing.{is_visible};
    ghost use Rattle.world_store.specs.StoryGrammars.{grammar_of};
    ghost use Rattle.world_store.specs.StorySettings.{setting_of};

    ghost grammar = { λ play. grammar_of play.world.now.tables };

    ghost sees = { λ play. is_visible (setting_of play.world.now.tables) play.world.now.world };

    #[tactic(auto, unfolding(world_store::specs::StorySettings::setting_of))]
    fn object_count(&self) -> u16 {
        self.world.story().object_count() as u16
    }

    fn is_of(&self, object: ObjNo, kind: KindNo) -> bool {
        self.world.is_of(object, kind)
    }

    fn visible(&self, object: ObjNo) -> bool {
        self.world.visible(object)
    }

    fn has_word(&self, object: ObjNo, word: &[u8]) -> bool {
        self.world.story().has_word(object, word)
    }

    fn word_count(&self, object: ObjNo) -> usize {
        self.world.story().word_count(object)
    }

    fn word(&self, object: ObjNo, place: usize) -> &[u8] {
        self.world.story().word(object, place)
    }

    fn line_count(&self) -> u16 {
        self.world.story().line_count()
    }

    fn action(&self, line: u16) -> ActNo {
        self.world.story().line_action(line)
    }

    fn token_count(&self, line: u16) -> usize {
        self.world.story().token_count(line)
    }

    fn token(&self, line: u16, place: usize) -> Option<Token<'_>> {
        self.world.story().token(line, place)
    }
}
