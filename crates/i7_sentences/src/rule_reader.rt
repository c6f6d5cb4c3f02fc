//! Reading a sentence as a rule.
ghost use Rattle.std.specs.Prelude.{◌≡◌, IfOk};
ghost use Rattle.i7_sentences.specs.Bodies.{phrases_of};
ghost use Rattle.i7_sentences.specs.Lowest.{lowest};
ghost use Rattle.i7_sentences.specs.Rules.{body_heard, head_heard, head_reserved, rule_heard, unless_reserved, unless_unread};
ghost use Rattle.i7_sentences.specs.Stretches.{bad_literal_in, rule_stretches};

use crate::body::{PhraseLine, line_in, phrases_of};
use crate::heard::{Heard, HeardPart};
use crate::low::lower_of;
use crate::rule_body::read_body;
use crate::rule_head::{Head, head_in, parted_at_body};
use crate::stretch::{bad_literal_in, bad_phrase};
use crate::tagged::Tagged;
use crate::{Assertion, Rule};
use i7_lexer::PackedToken;
use std::alloc::{AllocError, Global};

/// Not understood at the line, if there is one, and else the next answer.
fn unless_unread(line: Option<u32>, next: Heard) -> Heard
    ensures { result ≡ unless_unread line next }
{
    match line {
        None => next,
        Some(line) => {
            drop(next);
            Heard::Unread(line)
        }
    }
}

/// A reserved word in a name at the line, if there is one, and else the next answer.
fn unless_reserved(line: Option<u32>, next: Heard) -> Heard
    ensures { result ≡ unless_reserved line next }
{
    match line {
        None => next,
        Some(line) => {
            drop(next);
            Heard::Reserved(line)
        }
    }
}

/// The rule's line, if the name of a scene in its head holds a reserved word.
fn head_reserved(line: u32, head: &Head) -> Option<u32>
    ensures { result ≡ head_reserved line head.now }
{
    if head.has_reserved_name {
        Some(line)
    } else {
        None
    }
}

/// The rule with this head and a body of these phrases, or the line at which the body is refused.
fn body_heard(
    alloc: Global,
    line: u32,
    head: Head,
    phrases: &[PhraseLine<'_>],
) -> Result<Heard, AllocError>
    ensures { IfOk result (λ heard. heard ≡ body_heard line head (phrases_of phrases.now)) }
{
    let found = read_body(alloc, line, head.takes_one, phrases)?;
    let reserved = lower_of(head_reserved(line, &head), found.reserved);
    let rule = Heard::Says(Assertion::Rule(Rule {
        book: head.book,
        subject: head.subject,
        scene: head.scene,
        condition: head.condition,
        name: head.name,
        body: found.body,
    }));
    Ok(unless_unread(found.unread, unless_reserved(reserved, rule)))
}

/// What a rule says with this head, if it is understood, and a body of these phrases.
fn head_heard(
    alloc: Global,
    line: u32,
    head: Option<Head>,
    phrases: &[PhraseLine<'_>],
) -> Result<Heard, AllocError>
    ensures { IfOk result (λ heard. heard ≡ head_heard line head (phrases_of phrases.now)) }
{
    match head {
        None => Ok(Heard::Unread(line)),
        Some(head) => Ok(body_heard(alloc, line, head, phrases)?),
    }
}

/// What a sentence says that is a rule: C5 is told at the rule's line of its head and at a phrase's of a phrase, then
/// C6 alike, each at the lowest.
/// (*Writing with Inform*, chapters 7, 9 to 12 and 19, as far as this profile goes.)
#[tactic(auto, using(crate::proofs::Lowest::lower_steps))]
pub fn rule_part(
    alloc: Global,
    tokens: &[PackedToken],
    words: &[Tagged<'_>],
) -> Result<HeardPart, AllocError>
    requires { words.now ≡ tokens.now }
    ensures heard { IfOk result (λ part. part.heard ≡ rule_heard tokens.now) }
    ensures literals { IfOk result (λ part. part.bad_literal ≡ lowest bad_literal_in (rule_stretches tokens.now)) }
{
    let line = line_in(tokens);
    let (front, body) = parted_at_body(tokens, words);
    let phrases = phrases_of(alloc, body)?;
    let head = head_in(alloc, words)?;
    Ok(HeardPart {
        heard: head_heard(alloc, line, head, phrases.as_slice())?,
        bad_literal: lower_of(bad_literal_in(line, front), bad_phrase(phrases.as_slice())),
    })
}
