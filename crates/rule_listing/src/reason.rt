//! What puts a rule at its place in its rulebook, and what decides between two.
use crate::placing::{Placed, Placing};
use play_meaning::tree::{Aspect, RuleHead};
use rule_order::{Heading, aspects_of, grade_of};
use std::alloc::{AllocError, Global};
use world_meaning::KindNo;

/// How many things a rule asks, and how closely it tells its nouns and its place; 0 where it asks nothing of one.
#[derive(Clone, Copy, Debug, PartialEq, Eq)]
pub struct Specificity {
    pub aspects: u8,
    pub noun: u64,
    pub second: u64,
    pub place: u64,
}

/// What puts a rule at its place.
#[derive(Clone, Copy, Debug, PartialEq, Eq)]
pub enum Reason {
    /// A sentence lists it first: the sentence's line.
    First(u32),
    /// A sentence lists it last: the sentence's line.
    Last(u32),
    /// No sentence lists it.
    Asks(Specificity),
}

impl Specificity {
    /// Of a rule that asks its action alone, as each standard rule does.
    pub const OF_STANDARD: Specificity = Specificity {
        aspects: 1,
        noun: 0,
        second: 0,
        place: 0,
    };
}

/// How closely an aspect is told, where there are so few kinds as a source may have.
fn grade(kinds: &[Option<KindNo>], aspect: &Aspect) -> u64 {
    if kinds.len() <= 255 {
        grade_of(kinds, aspect)
    } else {
        0
    }
}

/// How specific the rule of this head is.
pub fn specificity_of(kinds: &[Option<KindNo>], head: &RuleHead) -> Specificity {
    let pattern = &head.pattern;
    let aspects = aspects_of(&Heading {
        book: head.book,
        pattern,
        is_conditional: head.condition.is_some(),
        listing: head.listing,
    });
    Specificity {
        aspects,
        noun: grade(kinds, &pattern.noun),
        second: grade(kinds, &pattern.second),
        place: grade(kinds, &pattern.place),
    }
}

/// What puts a rule at its place: the latest sentence about it, or how specific it is.
pub fn reason_of(placing: Option<&Placing>, specificity: Specificity) -> Reason {
    match placing {
        None => Reason::Asks(specificity),
        Some(placing) => match placing.place {
            Placed::First => Reason::First(placing.line),
            Placed::Last => Reason::Last(placing.line),
            Placed::Nowhere => Reason::Asks(specificity),
        },
    }
}

/// Adds how closely a rule tells a noun or its place, if it asks anything of it.
fn add_grade(alloc: Global, told: &mut String, name: &str, grade: u64) -> Result<(), AllocError> {
    if grade == 0 {
        return Ok(());
    }
    let said = format!(in alloc; ", {name} {grade}")?;
    told.push_str(said.as_str())
}

impl Specificity {
    /// `asks 3, noun 21, place 10000`
    fn told(&self, alloc: Global) -> Result<String, AllocError> {
        let aspects = self.aspects;
        let mut told = format!(in alloc; "asks {aspects}")?;
        add_grade(alloc, &mut told, "noun", self.noun)?;
        add_grade(alloc, &mut told, "second noun", self.second)?;
        add_grade(alloc, &mut told, "place", self.place)?;
        Ok(told)
    }
}

impl Reason {
    /// `listed first`, or how specific the rule is.
    pub fn told(&self, alloc: Global) -> Result<String, AllocError> {
        match self {
            Reason::First(_) => String::from_str(alloc, "listed first"),
            Reason::Last(_) => String::from_str(alloc, "listed last"),
            Reason::Asks(specificity) => specificity.told(alloc),
        }
    }
}

/// What decides between two rules that no sentence lists.
fn parted_by(one: &Specificity, other: &Specificity) -> &'static str {
    if one.aspects != other.aspects {
        "it asks more"
    } else if one.noun != other.noun {
        "its noun is told more closely"
    } else if one.second != other.second {
        "its second noun is told more closely"
    } else if one.place != other.place {
        "its place is told more closely"
    } else {
        "it comes earlier in the source"
    }
}

/// Why a rule goes before the next one of its rulebook.
pub fn decided_by(one: &Reason, next: &Reason) -> &'static str {
    match one {
        Reason::First(_) => match next {
            Reason::First(_) => "the later sentence lists it",
            _ => "it is listed first",
        },
        Reason::Last(_) => "the earlier sentence lists it",
        Reason::Asks(one) => match next {
            Reason::Asks(next) => parted_by(one, next),
            _ => "the next is listed last",
        },
    }
}
