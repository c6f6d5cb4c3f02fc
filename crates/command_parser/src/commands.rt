//! What a command is read against: objects and the words that they go by, the lines of a grammar, and what the player sees.
use command_grammar::Token;
use play_meaning::ActNo;
use world_meaning::{KindNo, ObjNo};

/// A story as commands are read against it. Objects and lines go by their numbers, words and tokens by their places, each
/// from 0; of a number or a place that isn't there nothing holds. No call takes memory.
pub trait Commands {
    ghost use Rattle.std.specs.Prelude.{◌≡◌, [], ℕ, Bool, length, map, slice_get, slice_index_or};
    ghost use Rattle.std.specs.Option.{option_map};
    ghost use Rattle.play_meaning.specs.Grammar.{Grammar, has_word};
    ghost use Rattle.command_grammar.specs.Lines.{told_token};
    ghost use Rattle.command_parser.specs.Tokens.{line_at};

    /// The setting, the words of its objects, and the lines, the author's first.
    ghost grammar: { Self → Grammar };

    /// What the player sees at the moment.
    ghost sees: { Self → ℕ → Bool };

    /// How many objects there are.
    fn object_count(&self) -> u16
        ensures { result ≡ (grammar self.now).setting.count };

    /// Whether an object is of a kind, or of one below it.
    fn is_of(&self, object: ObjNo, kind: KindNo) -> bool
        ensures { result ≡ (grammar self.now).setting.is_of object kind };

    /// Whether the player sees an object.
    fn visible(&self, object: ObjNo) -> bool
        ensures { result ≡ sees self.now object };

    /// Whether an object goes by a word, whatever the case of its letters.
    fn has_word(&self, object: ObjNo, word: &[u8]) -> bool
        ensures { result ≡ has_word ((grammar self.now).words object) word.now };

    /// How many words an object goes by.
    fn word_count(&self, object: ObjNo) -> usize
        ensures { result ≡ length ((grammar self.now).words object) };

    /// A word that an object goes by.
    fn word(&self, object: ObjNo, place: usize) -> &[u8]
        ensures { result.now ≡ slice_index_or ((grammar self.now).words object) place [] };

    /// How many lines there are.
    fn line_count(&self) -> u16
        ensures { result ≡ length (grammar self.now).lines };

    /// The action that a line asks for.
    fn action(&self, line: u16) -> ActNo
        ensures { result ≡ (line_at (grammar self.now) line).action };

    /// How many tokens a line has.
    fn token_count(&self, line: u16) -> usize
        ensures { result ≡ length (line_at (grammar self.now) line).tokens };

    /// A token of a line.
    fn token(&self, line: u16, place: usize) -> Option<Token<'_>>
        ensures { option_map told_token result ≡ slice_get (line_at (grammar self.now) line).tokens place };
}
