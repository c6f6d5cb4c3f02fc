//! The rules among a source's sentences.
ghost use Rattle.std.specs.Prelude.{◌≡◌, ◌++◌, IfOk, OnOk};
ghost use Rattle.i7_rules.specs.RuleList.{rules_in, rules_lent, rules_said};
ghost use Rattle.i7_rules.specs.RuleScans.{line_behind};

use i7_sentences::{Assertion, Rule, Sentence};
use std::alloc::{AllocError, Global};

/// A rule, and the line of the sentence that says it.
#[derive(Clone, Copy)]
pub struct RuleAt<'a> {
    pub line: u32,
    pub rule: &'a Rule,
}

/// Adds the rule of a sentence, if it says one.
fn add_rule<'a>(rules: &mut Vec<RuleAt<'a>>, sentence: &'a Sentence) -> Result<(), AllocError>
    ensures { OnOk result (rules_lent rules.new.items ≡ rules_lent rules.old.items ++ rules_said sentence.now) }
{
    match &sentence.said {
        Assertion::Rule(rule) => {
            let line = sentence.line;
            rules.push(RuleAt { line, rule })?;
            Ok(())
        }
        _ => Ok(()),
    }
}

/// The rules that sentences say, in order.
pub fn rules_in<'a>(alloc: Global, sentences: &'a [Sentence]) -> Result<Vec<RuleAt<'a>>, AllocError>
    ensures { IfOk result (λ rules. rules_lent rules.items ≡ rules_in sentences.now) }
{
    let mut rules = Vec::new(alloc);
    let mut rest = sentences;
    while let [sentence, behind @ ..] = rest {
        add_rule(&mut rules, sentence)?;
        rest = behind;
    }
    Ok(rules)
}

/// The line of the rule that stands behind so many others, if there is one.
pub fn line_behind(rules: &[RuleAt<'_>], count: usize) -> Option<u32>
    ensures { result ≡ line_behind (rules_lent rules.now) count }
{
    match rules.get(count) {
        None => None,
        Some(rule) => Some(rule.line),
    }
}
