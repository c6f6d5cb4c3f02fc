//! Reading the body of a rule: what each phrase says, and how deep it stands.
ghost use Rattle.std.specs.Prelude.{◌≡◌, Some, IfOk};
ghost use Rattle.i7_sentences.specs.Bodies.{phrase_of, phrases_of};
ghost use Rattle.i7_sentences.specs.BodyOrder.{or_else, place_of, reserved_line};
ghost use Rattle.i7_sentences.specs.RuleBodies.{body_phrases, is_otherwise, is_outermost, outermost_line, phrase_at, second_line, spoken_phrase, unread_line, unspoken_line};

use crate::body::PhraseLine;
use crate::body_order::{body_fault, has_instead, reserved_line, without_instead};
use crate::body_place::{Place, advance, depth_of, start};
use crate::low::lower_of;
use crate::spoken_reader::{SpokenPhrase, spoken_in};
use crate::{RuleBody, RulePhrase, Spoken};
use std::alloc::{AllocError, Global};

/// What a body says, and where it is refused.
#[derive(Drop)]
pub struct BodyRead {
    pub body: RuleBody,
    /// The lowest line of what isn't understood or may not stand where it stands.
    pub unread: Option<u32>,
    /// The line of the first phrase with a reserved word in a name.
    pub reserved: Option<u32>,
}

/// What a body says, and the line of the first phrase that isn't understood.
#[derive(Drop)]
struct SpokenBody {
    body: RuleBody,
    unspoken: Option<u32>,
}

/// What a phrase says, if it is understood.
fn spoken_phrase(alloc: Global, phrase: &PhraseLine<'_>) -> Result<Option<SpokenPhrase>, AllocError>
    ensures { IfOk result (λ spoken. spoken ≡ spoken_phrase (phrase_of phrase.now)) }
{
    Ok(spoken_in(alloc, without_instead(phrase.tokens))?)
}

/// The phrase with its depth.
fn phrase_at(place: &Place, phrase: &PhraseLine<'_>, spoken: SpokenPhrase) -> RulePhrase
    ensures { result ≡ phrase_at (place_of place.now) (phrase_of phrase.now) spoken }
{
    RulePhrase {
        line: phrase.line,
        depth: depth_of(place, spoken.form, phrase),
        said: spoken.said,
        is_instead: has_instead(phrase.tokens),
    }
}

/// The first line of those that aren't understood, behind one more.
fn earlier_line(first: Option<u32>, line: u32) -> Option<u32>
    ensures { result ≡ or_else first (Some line) }
{
    match first {
        None => Some(line),
        Some(first) => Some(first),
    }
}

/// What the phrases of a body say, behind the head of a rule at this line, and the line of the first that
/// isn't understood, which is left out.
fn spoken_body(
    alloc: Global,
    line: u32,
    phrases: &[PhraseLine<'_>],
) -> Result<SpokenBody, AllocError>
    ensures body { IfOk result (λ spoken. spoken.body ≡ body_phrases line (phrases_of phrases.now)) }
    ensures unspoken { IfOk result (λ spoken. spoken.unspoken ≡ unspoken_line (phrases_of phrases.now)) }
{
    let mut all = Vec::new(alloc);
    let mut unspoken = None;
    let mut place = start(alloc, line);
    let mut rest = phrases;
    while let [phrase, after @ ..] = rest {
        match spoken_phrase(alloc, phrase)? {
            None => unspoken = earlier_line(unspoken, phrase.line),
            Some(spoken) => {
                let form = spoken.form;
                all.push(phrase_at(&place, phrase, spoken))?;
                advance(&mut place, form, phrase)?;
            }
        }
        rest = after;
    }
    Ok(SpokenBody {
        body: RuleBody::new(all),
        unspoken,
    })
}

/// Whether the phrase is an `otherwise`.
fn is_otherwise(said: &Spoken) -> bool
    ensures { result ≡ is_otherwise said.now }
{
    match said {
        Spoken::OtherwiseIf(_) | Spoken::Otherwise => true,
        _ => false,
    }
}

/// Whether the phrase belongs to no other.
#[tactic(auto, unfolding(crate::specs::RuleBodies::is_outermost))]
fn is_outermost(phrase: &RulePhrase) -> bool
    ensures { result ≡ is_outermost phrase.now }
{
    phrase.depth == 0 && !is_otherwise(&phrase.said)
}

/// The line of the first phrase that belongs to no other.
fn outermost_line(phrases: &[RulePhrase]) -> Option<u32>
    ensures { result ≡ outermost_line phrases.now }
{
    let mut rest = phrases;
    while let [phrase, after @ ..] = rest {
        if is_outermost(phrase) {
            return Some(phrase.line);
        }
        rest = after;
    }
    None
}

/// The line of the second phrase, where one has to stand and several do.
fn second_line(takes_one: bool, phrases: &[RulePhrase]) -> Option<u32>
    ensures { result ≡ second_line takes_one phrases.now }
{
    if !takes_one {
        return None;
    }
    match phrases {
        [] => None,
        [_, others @ ..] => outermost_line(others),
    }
}

/// Reads the phrases of a body, behind the head of a rule at this line; behind a comma it takes one.
pub fn read_body(
    alloc: Global,
    line: u32,
    takes_one: bool,
    phrases: &[PhraseLine<'_>],
) -> Result<BodyRead, AllocError>
    ensures body { IfOk result (λ read. read.body ≡ body_phrases line (phrases_of phrases.now)) }
    ensures unread { IfOk result (λ read. read.unread ≡ unread_line line takes_one (phrases_of phrases.now)) }
    ensures reserved { IfOk result (λ read. read.reserved ≡ reserved_line (phrases_of phrases.now)) }
{
    let spoken = spoken_body(alloc, line, phrases)?;
    let misplaced = lower_of(body_fault(alloc, line, phrases)?, spoken.unspoken);
    let second = second_line(takes_one, spoken.body.as_slice());
    Ok(BodyRead {
        body: spoken.body,
        unread: lower_of(second, misplaced),
        reserved: reserved_line(alloc, phrases)?,
    })
}
