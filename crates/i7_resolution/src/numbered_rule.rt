//! All rules of a story by number, as sentences name them: those that every story has, and behind them the author's.
ghost use Rattle.std.specs.Prelude.{◌≡◌, ◌++◌, Some as There, map, IfOk, OnOk};
ghost use Rattle.i7_rules.specs.Abouts.{IsGiven};
ghost use Rattle.i7_rules.specs.Knowns.{known_of};
ghost use Rattle.i7_rules.specs.RuleList.{name_of, rules_lent, standard_names};
ghost use Rattle.i7_resolution.specs.NumberedRules.{HasBook, all_names, is_named, rule_named};

use i7_conditions::key_of;
use i7_rules::{Known, RuleAt, STANDARD_NAMES, book_of_head, name_of};
use rule_order::standard_book;
use std::alloc::{AllocError, Global};
use world_meaning::TextBytes;

/// The number of the author's first rule.
const FIRST_OWN: usize = 61;

/// Adds the names of the rules that every story has.
#[tactic(auto, unfolding(i7_rules::specs::RuleList::standard_names))]
fn add_standard(alloc: Global, names: &mut Vec<Option<TextBytes>>) -> Result<(), AllocError>
    ensures { OnOk result (names.new.items ≡ names.old.items ++ map There standard_names) }
{
    let mut rest = STANDARD_NAMES.as_slice();
    while let [name, behind @ ..] = rest {
        names.push(Some(TextBytes::copied(alloc, name)?))?;
        rest = behind;
    }
    Ok(())
}

/// Adds the names of the author's rules, of those that have one.
fn add_author(
    alloc: Global,
    names: &mut Vec<Option<TextBytes>>,
    rules: &[RuleAt<'_>],
) -> Result<(), AllocError>
    ensures { OnOk result (names.new.items ≡ names.old.items ++ map name_of (rules_lent rules.now)) }
{
    let mut rest = rules;
    while let [rule, behind @ ..] = rest {
        names.push(name_of(alloc, rule)?)?;
        rest = behind;
    }
    Ok(())
}

/// The names of all rules, by number, where the author's are these.
pub fn names_of(alloc: Global, rules: &[RuleAt<'_>]) -> Result<Vec<Option<TextBytes>>, AllocError>
    ensures { IfOk result (λ names. names.items ≡ all_names (rules_lent rules.now)) }
{
    let mut names = Vec::new(alloc);
    add_standard(alloc, &mut names)?;
    add_author(alloc, &mut names, rules)?;
    Ok(names)
}

/// Whether a rule of this name, if it has one, is meant by the key.
fn is_named(key: &[u8], name: &Option<TextBytes>) -> bool
    ensures { result ≡ is_named key.now name.now }
{
    match name {
        None => false,
        Some(name) => name.as_slice() == key,
    }
}

/// The first of the rules of these names that words name.
pub fn rule_named(
    alloc: Global,
    names: &[Option<TextBytes>],
    words: &[TextBytes],
) -> Result<Option<usize>, AllocError>
    ensures { IfOk result (λ rule. rule ≡ rule_named names.now words.now) }
{
    let key = key_of(alloc, words)?;
    let key = key.as_slice();
    Ok(names.iter().position(|name| is_named(key, name)))
}

/// The rulebook of the rule of this number, if it is there.
pub fn book_of_rule(
    alloc: Global,
    known: &Known<'_>,
    rules: &[RuleAt<'_>],
    rule: usize,
) -> Result<Option<u16>, AllocError>
    ensures { IfOk result (λ book. IsGiven (HasBook (known_of known.now) (rules_lent rules.now) rule) book) }
{
    match standard_book(rule) {
        Some(book) => Ok(Some(book)),
        None => match rules.get(rule.saturating_sub(FIRST_OWN)) {
            None => Ok(None),
            Some(own) => book_of_head(alloc, known, &own.rule.book),
        },
    }
}
