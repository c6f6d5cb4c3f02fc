//! The grammar that a story gives to play.
ghost use Rattle.std.specs.Prelude.{◌≡◌, MatchOption, length, slice_get, slice_index_or};
ghost use Rattle.std.specs.Option.{option_map};
ghost use Rattle.command_grammar.specs.Lines.{no_line, told_token};
ghost use Rattle.story_format.specs.Facts.{line_in, lines_of, token_in};

use crate::Story;
use crate::rule_tables::LineEntry;
use command_grammar::Token;
use play_meaning::ActNo;

/// The number in a line that stands for a slot for a thing.
pub const SOMETHING: u16 = 65_534;

/// The number in a line that stands for a slot for a direction.
pub const DIRECTION: u16 = 65_535;

impl Story {
    /// The line of a number, if there is one.
    fn line(&self, line: u16) -> Option<&LineEntry>
        ensures { MatchOption result (slice_index_or (lines_of self.now) line no_line ≡ no_line) (λ entry. slice_index_or (lines_of self.now) line no_line ≡ line_in self.now.strings entry.now) }
    {
        let lines = self.tables().rules.grammar.as_slice();
        match lines.get(usize::from(line)) {
            Some(entry) => Some(entry),
            None => None,
        }
    }

    /// What a number in a line stands for.
    fn told(&self, number: u16) -> Token<'_>
        ensures { told_token result ≡ token_in self.now.strings number }
    {
        if number == SOMETHING {
            Token::Something
        } else if number == DIRECTION {
            Token::Direction
        } else {
            Token::Word(self.string(number))
        }
    }

    /// How many lines the grammar has, the author's and those that every story understands.
    #[tactic(auto, using(crate::proofs::RightRules::few_lines))]
    pub fn line_count(&self) -> u16
        ensures { result ≡ length (lines_of self.now) }
    {
        self.tables().rules.grammar.as_slice().len() as u16
    }

    /// The action that a line asks for, by the line's number from 0; that of none where there is no such line.
    pub fn line_action(&self, line: u16) -> ActNo
        ensures { result ≡ (slice_index_or (lines_of self.now) line no_line).action }
    {
        match self.line(line) {
            Some(entry) => ActNo::new(entry.action),
            None => ActNo::NONE,
        }
    }

    /// How many tokens a line has; none where there is no such line.
    pub fn token_count(&self, line: u16) -> usize
        ensures { result ≡ length (slice_index_or (lines_of self.now) line no_line).tokens }
    {
        match self.line(line) {
            Some(entry) => entry.tokens.as_slice().len(),
            None => 0,
        }
    }

    /// A token of a line, by its place from 0.
    pub fn token(&self, line: u16, place: usize) -> Option<Token<'_>>
        ensures { option_map told_token result ≡ slice_get (slice_index_or (lines_of self.now) line no_line).tokens place }
    {
        let entry = self.line(line)?;
        match entry.tokens.as_slice().get(place) {
            Some(number) => Some(self.told(*number)),
            None => None,
        }
    }
}
