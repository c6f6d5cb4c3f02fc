//! The names of rules, none of which is given twice: `This is the tidy rule`.
ghost use Rattle.std.specs.Prelude.{◌≡◌, fold, map, reverse, IfOk, OnOk};
ghost use Rattle.object_words.specs.Mentions.{mention};
ghost use Rattle.i7_rules.specs.RuleList.{name_of, placed, rule_lent, rules_lent};
ghost use Rattle.i7_rules.specs.RuleScans.{IsLow, mention_name, standard_mentions, twice_at};
ghost use Rattle.i7_rules.specs.SourceRules.{IsNamedTwice};

use crate::rule_list::RuleAt;
use crate::standard_names::STANDARD_NAMES;
use i7_conditions::key_of;
use i7_sentences::lower_of;
use object_words::Strings;
use std::alloc::{AllocError, Global};
use world_meaning::TextBytes;

/// The name of a rule in small letters, if it has one.
pub fn name_of(alloc: Global, rule: &RuleAt<'_>) -> Result<Option<TextBytes>, AllocError>
    ensures { IfOk result (λ name. name ≡ name_of (rule_lent rule.now)) }
{
    match &rule.rule.name {
        None => Ok(None),
        Some(words) => Ok(Some(TextBytes::new(key_of(alloc, words.as_slice())?))),
    }
}

/// Mentions these names.
fn mention_all(alloc: Global, names: &mut Strings, more: &[&[u8]]) -> Result<(), AllocError>
    ensures { OnOk result (names.new ≡ fold mention names.old (map (λ name. name.now) more.now)) }
{
    let mut rest = more;
    while let [name, behind @ ..] = rest {
        names.mention(alloc, name)?;
        rest = behind;
    }
    Ok(())
}

/// The names of the standard rules.
#[tactic(auto, unfolding(crate::specs::RuleList::standard_names))]
fn standard_names(alloc: Global) -> Result<Strings, AllocError>
    ensures { IfOk result (λ names. names ≡ standard_mentions) }
{
    let mut names = Strings::new(alloc);
    mention_all(alloc, &mut names, &STANDARD_NAMES)?;
    Ok(names)
}

/// Mentions the name of a rule, and tells the rule's line if the name was mentioned before.
fn twice_at(
    alloc: Global,
    names: &mut Strings,
    rule: &RuleAt<'_>,
) -> Result<Option<u32>, AllocError>
    ensures told { IfOk result (λ told. told ≡ twice_at names.old (rule_lent rule.now)) }
    ensures names { OnOk result (names.new ≡ mention_name names.old (name_of (rule_lent rule.now))) }
{
    match name_of(alloc, rule)? {
        None => Ok(None),
        Some(name) => {
            let is_twice = names.contains(name.as_slice());
            names.mention(alloc, name.as_slice())?;
            Ok(if is_twice { Some(rule.line) } else { None })
        }
    }
}

/// The lowest line of a rule whose name a rule before it or a standard rule has.
pub fn name_twice(alloc: Global, rules: &[RuleAt<'_>]) -> Result<Option<u32>, AllocError>
    ensures { IfOk result (λ low. IsLow IsNamedTwice (placed (reverse (rules_lent rules.now))) low) }
{
    let mut names = standard_names(alloc)?;
    let mut low = None;
    let mut rest = rules;
    while let [rule, behind @ ..] = rest {
        low = lower_of(low, twice_at(alloc, &mut names, rule)?);
        rest = behind;
    }
    Ok(low)
}
