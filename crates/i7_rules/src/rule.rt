//! What a rule of a source is: `Every turn when the box is open, say "Creak."` (*Writing with Inform*, chapter 19).
ghost use Rattle.std.specs.Prelude.{◌≡◌, IfOk};
ghost use Rattle.i7_rules.specs.Knowns.{known_of};
ghost use Rattle.i7_rules.specs.Rules.{IsRuleFound, joined};

use crate::body::{BodyRead, body_of};
use crate::head::head_of;
use crate::known::Known;
use i7_patterns::Asked;
use i7_sentences::Rule;
use play_meaning::tree::{MeantRule, RuleHead};
use std::alloc::{AllocError, Global};

/// What a rule of a source is.
#[derive(Drop)]
pub enum RuleFound {
    Says(MeantRule),
    /// The names allow no reading of what stands at this line, the first of such (C7): the head, at the rule's line, or a
    /// phrase at its own.
    Unknown(u32),
    /// All is understood, but the place that the head asks for is no room, or the head asks for a value (C8).
    WrongKind,
    /// All is understood, but what stands at this line, the first of such, holds more than the language allows (C12).
    TooMany(u32),
    /// The lines of its body can't be put together.
    Unnested,
}

/// A rule by what is found of its head and of its body.
fn joined(line: u32, head: Asked<RuleHead>, body: BodyRead) -> RuleFound
    ensures { result ≡ joined line head body }
{
    match head {
        Asked::Unread => RuleFound::Unknown(line),
        Asked::WrongKind => match body {
            BodyRead::Unknown(at) => RuleFound::Unknown(at),
            _ => RuleFound::WrongKind,
        },
        Asked::TooMany => match body {
            BodyRead::Unknown(at) => RuleFound::Unknown(at),
            _ => RuleFound::TooMany(line),
        },
        Asked::Read(head) => match body {
            BodyRead::Says(body) => RuleFound::Says(MeantRule { head, body }),
            BodyRead::Unknown(at) => RuleFound::Unknown(at),
            BodyRead::TooMany(at) => RuleFound::TooMany(at),
            BodyRead::Unnested => RuleFound::Unnested,
        },
    }
}

/// What a rule that begins at this line is.
pub fn rule_of(
    alloc: Global,
    known: &Known<'_>,
    line: u32,
    rule: &Rule,
) -> Result<RuleFound, AllocError>
    ensures { IfOk result (λ found. IsRuleFound (known_of known.now) line rule.now found) }
{
    let head = head_of(alloc, known, rule)?;
    let body = body_of(alloc, known, rule.body.as_slice())?;
    Ok(joined(line, head, body))
}
