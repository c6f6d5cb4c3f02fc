//! A command of a typed line, by its words.
ghost use Rattle.std.specs.Prelude.{◌≡◌, [], ◌∷◌, ◌++◌, ◌<◌, length, map};

use arrayvec::ArrayVec;
use std::marker::Model;

/// The most words of a line, and so of a command.
pub(crate) const MOST_WORDS: usize = 32;

/// The words of a command, as they were typed.
#[derive(Drop)]
pub struct Command<'a> {
    words: ArrayVec<&'a [u8], MOST_WORDS>,
}

impl<'a> Model for Command<'a> {
    ghost use Rattle.std.specs.Prelude.{List, ℕ, map};

    ghost Value = { List (List ℕ) };

    ghost view = { λ command. map (λ word. word.now) command.words.items };
}

impl<'a> Command<'a> {
    /// No word so far.
    pub(crate) fn new() -> Command<'a>
        ensures { result ≡ [] }
    {
        Command {
            words: ArrayVec::new(),
        }
    }

    /// Adds a word, for which there is room.
    pub(crate) fn push(&mut self, word: &'a [u8])
        requires { length self.old < MOST_WORDS }
        ensures { self.new ≡ self.old ++ word.now ∷ [] }
    {
        self.words.push(word);
    }

    /// The words, in order.
    pub(crate) fn words(&self) -> &[&'a [u8]]
        ensures { map (λ word. word.now) result.now ≡ self.now }
    {
        self.words.as_slice()
    }
}
