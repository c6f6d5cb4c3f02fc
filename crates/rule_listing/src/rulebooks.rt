//! The rulebooks of a source, and what is told of each of its rules.
use crate::book_names::{name_of, scenes_of};
use crate::head::heads_of;
use crate::placing::{Placing, latest_about, placings_of};
use crate::reason::{Reason, Specificity, reason_of, specificity_of};
use i7_rules::{STANDARD_NAMES, SourceRule};
use source_outline::Outline;
use std::alloc::{AllocError, Global};
use world_meaning::TextBytes;

/// The most rulebooks that there may be: eight, two for each of fifty scenes, and a hundred of the author's.
pub const MOST_BOOKS: u16 = 8 + 2 * 50 + 100;

/// The rulebooks of a source: its outline, and what its sentences say of scenes and rules.
#[derive(Drop)]
pub struct Rulebooks<'a> {
    pub outline: &'a Outline,
    /// The names of the scenes, by number, as their sentences write them.
    pub scenes: Vec<TextBytes>,
    /// Where sentences list rules, in their order.
    pub placings: Vec<Placing>,
    /// What the heads of the author's rules ask, in the order of their sentences.
    pub heads: Vec<String>,
}

/// What is told of a rule.
#[derive(Clone, Copy)]
pub struct RuleTold<'a> {
    /// Its name, if it has one.
    pub name: Option<&'a [u8]>,
    /// The line of its sentence; none of a standard rule.
    pub line: Option<u32>,
    /// What its head asks behind the name of its book, a blank in front of each word.
    pub head: &'a str,
    pub reason: Reason,
}

/// The scenes and placings of sentences.
fn scenes_and_placings(
    alloc: Global,
    outline: &Outline,
) -> Result<(Vec<TextBytes>, Vec<Placing>), AllocError> {
    let sentences = outline.sentences.as_slice();
    let scenes = scenes_of(alloc, sentences)?;
    match placings_of(alloc, sentences) {
        Ok(placings) => Ok((scenes, placings)),
        Err(refused) => {
            drop(scenes);
            Err(refused)
        }
    }
}

impl<'a> Rulebooks<'a> {
    /// The rulebooks of a source of this outline.
    pub fn new(alloc: Global, outline: &'a Outline) -> Result<Rulebooks<'a>, AllocError> {
        let heads = heads_of(alloc, outline.sentences.as_slice())?;
        match scenes_and_placings(alloc, outline) {
            Ok((scenes, placings)) => Ok(Rulebooks {
                outline,
                scenes,
                placings,
                heads,
            }),
            Err(refused) => {
                drop(heads);
                Err(refused)
            }
        }
    }

    /// The name of the rulebook of this number, as rules' heads have it.
    pub fn book_name(&self, alloc: Global, book: u16) -> Result<String, AllocError> {
        name_of(alloc, self, usize::from(book))
    }

    /// What puts the rule of this name at its place, where it is so specific.
    fn reason(&self, name: Option<&[u8]>, specificity: Specificity) -> Reason {
        match name {
            None => Reason::Asks(specificity),
            Some(name) => reason_of(latest_about(self.placings.as_slice(), name), specificity),
        }
    }

    /// A standard rule: each asks its action alone.
    fn standard(&self, name: &'static [u8]) -> RuleTold<'_> {
        RuleTold {
            name: Some(name),
            line: None,
            head: "",
            reason: self.reason(Some(name), Specificity::OF_STANDARD),
        }
    }

    /// The author's rule of this number among the author's.
    fn own(&self, number: usize, rule: &'a SourceRule) -> RuleTold<'_> {
        let name = match &rule.name {
            None => None,
            Some(name) => Some(name.as_slice()),
        };
        let kinds = self.outline.meant.tale.declared.kinds.as_slice();
        RuleTold {
            name,
            line: Some(rule.line),
            head: self.heads.get(number).map_or("", |head| head.as_str()),
            reason: self.reason(name, specificity_of(kinds, &rule.rule.head)),
        }
    }

    /// What is told of the rule of this number: the standard rules come first.
    pub fn rule(&self, number: u16) -> Option<RuleTold<'_>> {
        let number = usize::from(number);
        if let Some(name) = STANDARD_NAMES.get(number) {
            return Some(self.standard(name));
        }
        let own = number.saturating_sub(STANDARD_NAMES.len());
        match self.outline.meant.resolved.rules.get(own) {
            None => None,
            Some(rule) => Some(self.own(own, rule)),
        }
    }
}
