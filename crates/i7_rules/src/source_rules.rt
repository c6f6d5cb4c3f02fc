//! The rules of a source as a whole (*Writing with Inform*, chapter 19), or why the source is refused for them.
ghost use Rattle.std.specs.Prelude.{◌≡◌, Option, reverse, IfOk};
ghost use Rattle.i7_rules.specs.Knowns.{known_of};
ghost use Rattle.i7_rules.specs.RuleList.{rule_lent, rules_lent};
ghost use Rattle.i7_rules.specs.RuleScans.{IsSoFar, kept_of, line_behind, refused_or, so_far_told, state_of, with_found};
ghost use Rattle.i7_rules.specs.SourceRules.{IsRulesFound, most_rules};

use crate::known::Known;
use crate::laws::one_rule_is_told;
use crate::rule::{RuleFound, rule_of};
use crate::rule_list::{RuleAt, line_behind, rules_in};
use crate::rule_names::{name_of, name_twice};
use i7_sentences::{Sentence, lower_of};
use play_meaning::tree::MeantRule;
use std::alloc::{AllocError, Global};
use world_meaning::{Fault, FaultCode, TextBytes};

/// A rule of a source.
#[derive(Drop)]
pub struct SourceRule {
    /// The line of its sentence.
    pub line: u32,
    /// Its name in small letters, the words parted by one space: `tidy` of `(this is the tidy rule)`.
    pub name: Option<TextBytes>,
    pub rule: MeantRule,
}

/// What the rules of a source are.
#[derive(Drop)]
pub enum RulesFound {
    /// All of them, in order.
    Says(Vec<SourceRule>),
    /// The source is refused for them.
    Refused(Fault),
}

/// What is found of a source's first rules.
#[derive(Drop)]
struct SoFar {
    /// Those that are understood and within their limits.
    rules: Vec<SourceRule>,
    /// The lowest line at which something isn't understood.
    unknown: Option<u32>,
    /// The lowest line of a rule whose place is no room.
    misplaced: Option<u32>,
    /// The lowest line at which something holds more than the language allows.
    too_many: Option<u32>,
    /// The lowest line of a rule whose lines can't be put together.
    unnested: Option<u32>,
}

/// How many rules an author may give: 2,000 there may be with the sixty-one standard ones.
const MOST_RULES: usize = 1939;

/// The line of the author's rule that is one too many, if there is one.
#[tactic(auto, unfolding(crate::specs::SourceRules::most_rules))]
fn one_too_many(rules: &[RuleAt<'_>]) -> Option<u32>
    ensures { result ≡ line_behind (rules_lent rules.now) most_rules }
{
    line_behind(rules, MOST_RULES)
}

/// What is kept of a rule.
fn kept_of(alloc: Global, rule: &RuleAt<'_>, meant: MeantRule) -> Result<SourceRule, AllocError>
    ensures { IfOk result (λ kept. kept ≡ kept_of (rule_lent rule.now) meant) }
{
    match name_of(alloc, rule) {
        Ok(name) => Ok(SourceRule {
            line: rule.line,
            name,
            rule: meant,
        }),
        Err(refused) => {
            drop(meant);
            Err(refused)
        }
    }
}

/// With a rule that is found to be so.
fn with_found(
    alloc: Global,
    so_far: SoFar,
    rule: &RuleAt<'_>,
    found: RuleFound,
) -> Result<SoFar, AllocError>
    ensures { IfOk result (λ next. state_of next ≡ with_found (state_of so_far) (rule_lent rule.now) found) }
{
    let mut next = so_far;
    match found {
        RuleFound::Says(meant) => next.rules.push(kept_of(alloc, rule, meant)?)?,
        RuleFound::Unknown(at) => next.unknown = lower_of(next.unknown, Some(at)),
        RuleFound::WrongKind => next.misplaced = lower_of(next.misplaced, Some(rule.line)),
        RuleFound::TooMany(at) => next.too_many = lower_of(next.too_many, Some(at)),
        RuleFound::Unnested => next.unnested = lower_of(next.unnested, Some(rule.line)),
    }
    Ok(next)
}

/// What is found of all rules.
fn read_rules(alloc: Global, known: &Known<'_>, rules: &[RuleAt<'_>]) -> Result<SoFar, AllocError>
    ensures { IfOk result (λ so_far. IsSoFar (known_of known.now) (reverse (rules_lent rules.now)) (state_of so_far)) }
{
    one_rule_is_told();
    let mut so_far = SoFar {
        rules: Vec::new(alloc),
        unknown: None,
        misplaced: None,
        too_many: None,
        unnested: None,
    };
    let mut rest = rules;
    while let [rule, behind @ ..] = rest {
        let found = rule_of(alloc, known, rule.line, rule.rule)?;
        so_far = with_found(alloc, so_far, rule, found)?;
        rest = behind;
    }
    Ok(so_far)
}

/// Refused with the code at the line, if there is one, and else the next answer.
fn refused_or(code: FaultCode, line: Option<u32>, next: RulesFound) -> RulesFound
    ensures { result ≡ refused_or code line next }
{
    match line {
        None => next,
        Some(line) => RulesFound::Refused(Fault { code, line }),
    }
}

/// What is told of rules, by the lowest lines of a name given twice and of a rule that is one too many, and by what else is
/// found: the first refusal in order, or all of them.
fn told(twice: Option<u32>, too_many: Option<u32>, so_far: SoFar) -> RulesFound
    ensures { result ≡ so_far_told twice too_many so_far }
{
    let over = lower_of(so_far.too_many, too_many);
    let unnested = refused_or(
        FaultCode::NotUnderstood,
        so_far.unnested,
        RulesFound::Says(so_far.rules),
    );
    let limited = refused_or(FaultCode::TooMany, over, unnested);
    let in_rooms = refused_or(FaultCode::WrongKind, so_far.misplaced, limited);
    let known = refused_or(FaultCode::UnknownName, so_far.unknown, in_rooms);
    refused_or(FaultCode::Twice, twice, known)
}

/// The rules of a source, or what refuses it for them, each refusal being looked for in all rules before the next and told at its
/// lowest line: a name that an earlier rule or a standard rule has (C9), what the names allow no reading of (C7), a place that
/// is no room (C8), what holds more than the language allows, and a rule that is one too many (C12). Last comes a rule whose
/// lines can't be put together (C5).
pub fn rules_of(
    alloc: Global,
    known: &Known<'_>,
    sentences: &[Sentence],
) -> Result<RulesFound, AllocError>
    ensures { IfOk result (λ found. IsRulesFound (known_of known.now) sentences.now found) }
{
    let rules = rules_in(alloc, sentences)?;
    let twice = name_twice(alloc, rules.as_slice())?;
    let so_far = read_rules(alloc, known, rules.as_slice())?;
    let too_many = one_too_many(rules.as_slice());
    Ok(told(twice, too_many, so_far))
}
