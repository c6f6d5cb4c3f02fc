//! What a story that was loaded says of its rules, by number: their rulebooks and their codes, and not what they are about; and
//! of its rulebooks, in which order they list them.
ghost use Rattle.std.specs.Prelude.{◌≡◌, Some, length};
ghost use Rattle.story_format.specs.Facts.{body_of_rule, book_of_rule, code_in_body, condition_in, condition_of_rule, rules_listed};

use crate::place::NONE;
use crate::rule_entry::{RuleBody, RuleEntry};
use crate::story::Story;

fn condition_in(rule: &RuleEntry) -> Option<u16>
    ensures { result ≡ condition_in (Some rule.now) }
{
    if rule.condition == NONE {
        None
    } else {
        Some(rule.condition)
    }
}

fn code_in_body(body: &RuleBody) -> Option<u16>
    ensures { result ≡ code_in_body body.now }
{
    match body {
        RuleBody::Code(code) => Some(*code),
        _ => None,
    }
}

impl Story {
    /// How many rules there are.
    pub fn rule_count(&self) -> usize
        ensures { result ≡ length self.now.rules.rules }
    {
        self.tables().rules.rules.as_slice().len()
    }

    /// The rules that a book lists, by their numbers, in order; none of a book that isn't there.
    pub fn rules_listed(&self, book: u16) -> &[u16]
        ensures { result.now ≡ rules_listed self.now book }
    {
        match self.tables().rules.books.as_slice().get(usize::from(book)) {
            None => &[],
            Some(book) => book.rules.as_slice(),
        }
    }

    /// The rulebook that a rule is of, by its number.
    pub fn book_of_rule(&self, rule: usize) -> Option<u16>
        ensures { result ≡ book_of_rule self.now rule }
    {
        let rule = self.tables().rules.rules.as_slice().get(rule)?;
        Some(rule.book)
    }

    /// The number of the code that answers a rule's condition, if it has one.
    pub fn condition_of_rule(&self, rule: usize) -> Option<u16>
        ensures { result ≡ condition_of_rule self.now rule }
    {
        let rule = self.tables().rules.rules.as_slice().get(rule)?;
        condition_in(rule)
    }

    /// The number of the code that does what a rule does; none where that is a standard rule.
    pub fn body_of_rule(&self, rule: usize) -> Option<u16>
        ensures { result ≡ body_of_rule self.now rule }
    {
        let rule = self.tables().rules.rules.as_slice().get(rule)?;
        code_in_body(&rule.body)
    }
}
