//! Which words and marks of forms stand among tokens, as a table, by which most forms are passed over.
ghost use Rattle.std.specs.Prelude.{◌≡◌};
ghost use Rattle.i7_sentences.specs.Signs.{is_marked, marked, no_marks, table_of};

use crate::Keyword;
use crate::tagged::Tagged;
use std::marker::Model;

/// A mark at the number of each word or mark of forms that stands among the tokens.
#[derive(Drop)]
pub struct Signs {
    marks: [bool; 104],
}

impl Model for Signs {
    ghost use Rattle.std.specs.Prelude.{Bool, List};

    ghost Value = { List Bool };

    ghost view = { λ signs. signs.marks };
}

impl Signs {
    /// Whether the word or mark may be among the tokens.
    pub fn is_marked(&self, keyword: Keyword) -> bool
        ensures { result ≡ is_marked self.now keyword }
    {
        self.marks.get(keyword as usize).copied().unwrap_or(true)
    }

    #[tactic(auto, unfolding(crate::specs::Signs::no_marks))]
    fn none() -> Signs
        ensures { result ≡ no_marks }
    {
        Signs {
            marks: [false; 104],
        }
    }

    /// Marks one that is.
    fn mark(&mut self, keyword: Keyword)
        ensures { self.new ≡ marked self.old keyword }
    {
        let place = keyword as usize;
        if place < self.marks.len() {
            self.marks[place] = true;
        }
    }
}

/// The table of these tokens.
pub fn signs_of(tokens: &[Tagged<'_>]) -> Signs
    ensures { result ≡ table_of tokens.now }
{
    let mut signs = Signs::none();
    let mut rest = tokens;
    while let [token, after @ ..] = rest {
        if let Some(keyword) = token.keyword() {
            signs.mark(keyword);
        }
        rest = after;
    }
    signs
}
