//! The rule tables of a tale.
ghost use Rattle.std.specs.Prelude.{◌≡◌, ◌≤◌, ◌+◌, ◌*◌, ◌++◌, IfOk, OnOk, length, map, min};
ghost use Rattle.std.specs.Option.{option_map};
ghost use Rattle.play_meaning.specs.Meant.{adjective_meant, condition_meant};
ghost use Rattle.play_meaning.specs.Patterns.{aspect_meant, rule_meant};
ghost use Rattle.play_meaning.specs.ScenesMeant.{scene_meant};
ghost use Rattle.story_format.specs.RuleMaking.{all_entries, aspect_entry, book_count, codes_of_rules, condition_count, condition_number, number_or_none, rule_count, rule_entries, rule_entry, rules_of, scene_count, scene_entries, scene_entry, side_of};

use crate::actions::{action_entries, mark_if};
use crate::place::NONE;
use crate::rule_entry::{Aspect, KindAspect, PropertySide, RuleBody, RuleEntry};
use crate::rule_tables::{Book, LineEntry, RuleTables, SceneEntry};
use crate::standard_rules::standard_entries;
use crate::table::Table;
use play_meaning::ActNo;
use play_meaning::tree::{self, Adjective, Condition, MeantRule, MeantScene, Quality, Side};
use std::alloc::{AllocError, Global};
use world_meaning::{Declared, Listed};

/// A number as two bytes say it.
fn small(number: usize) -> u16
    ensures { result ≡ min number 65535 }
{
    number.min(65_535) as u16
}

fn condition_number(next: usize, condition: &Option<Condition>) -> u16
    ensures { result ≡ condition_number next (option_map condition_meant condition.now) }
{
    match condition {
        None => NONE,
        Some(_) => small(next),
    }
}

/// How many codes a condition has: one, if there is one.
fn condition_count(condition: &Option<Condition>) -> usize
    ensures { result ≡ condition_count (option_map condition_meant condition.now) }
{
    match condition {
        None => 0,
        Some(_) => 1,
    }
}

/// How many codes a rule has: that of its condition, if it has one, and that of its body.
fn rule_count(rule: &MeantRule) -> usize
    ensures { result ≡ rule_count (rule_meant rule.now) }
{
    condition_count(&rule.head.condition) + 1
}

/// How many codes rules have.
fn codes_of_rules(rules: &[MeantRule]) -> usize
    requires few_rules { length rules.now ≤ 1939 }
    ensures count { result ≡ codes_of_rules (map rule_meant rules.now) }
    ensures few { result ≤ 2 * length rules.now }
{
    let mut count = 0usize;
    let mut rest = rules;
    while let [rule, after @ ..] = rest {
        count += rule_count(rule);
        rest = after;
    }
    count
}

/// The number of an action or of a scene, if one is asked for.
fn number_or_none(number: Option<u8>) -> u8
    ensures { result ≡ number_or_none number }
{
    number.unwrap_or(255)
}

/// Which name of a property is asked, and whether it is denied; side 4 where a story file can't say it.
fn side_of(adjective: Adjective) -> PropertySide
    ensures { result ≡ side_of (adjective_meant adjective) }
{
    match adjective.quality {
        Quality::Is(property, Side::First) => PropertySide {
            property,
            side: if adjective.denied { 3 } else { 1 },
        },
        Quality::Is(property, Side::Second) => PropertySide {
            property,
            side: if adjective.denied { 2 } else { 0 },
        },
        Quality::Valued(..) | Quality::Visible | Quality::Touchable => PropertySide {
            property: 0,
            side: 4,
        },
    }
}

fn sides_of(alloc: Global, adjectives: &[Adjective]) -> Result<Listed<PropertySide>, AllocError>
    ensures { IfOk result (λ sides. sides ≡ map side_of (map adjective_meant adjectives.now)) }
{
    let mut sides = Vec::new(alloc);
    let mut rest = adjectives;
    while let [adjective, after @ ..] = rest {
        sides.push(side_of(*adjective))?;
        rest = after;
    }
    Ok(Listed::new(sides))
}

/// What a rule asks of a noun or of the place, as its entry says it.
fn aspect_entry(alloc: Global, aspect: &tree::Aspect) -> Result<Aspect, AllocError>
    ensures { IfOk result (λ entry. entry ≡ aspect_entry (aspect_meant aspect.now)) }
{
    match aspect {
        tree::Aspect::Anything => Ok(Aspect::Anything),
        tree::Aspect::Exactly(object) => Ok(Aspect::Object(object.get())),
        tree::Aspect::OfKind(kind, adjectives) => Ok(Aspect::Kind(KindAspect {
            kind: kind.get(),
            properties: sides_of(alloc, adjectives.as_slice())?,
        })),
    }
}

/// The entry of a rule whose first code has this number.
fn rule_entry(alloc: Global, next: usize, rule: &MeantRule) -> Result<RuleEntry, AllocError>
    requires { next ≤ 5000 }
    ensures { IfOk result (λ entry. entry ≡ rule_entry next (rule_meant rule.now)) }
{
    let pattern = &rule.head.pattern;
    Ok(RuleEntry {
        book: rule.head.book,
        action: number_or_none(pattern.action.map(ActNo::get)),
        noun: aspect_entry(alloc, &pattern.noun)?,
        second: aspect_entry(alloc, &pattern.second)?,
        place: aspect_entry(alloc, &pattern.place)?,
        scene: number_or_none(pattern.scene),
        condition: condition_number(next, &rule.head.condition),
        body: RuleBody::Code(small(next + rule_count(rule) - 1)),
    })
}

/// Adds the entries of rules, the first code having this number.
#[tactic(auto, unfolding(crate::specs::RuleMaking::rule_entries))]
fn add_entries(
    alloc: Global,
    entries: &mut Vec<RuleEntry>,
    first: usize,
    rules: &[MeantRule],
) -> Result<(), AllocError>
    requires few { first ≤ 1000 }
    requires few_rules { length rules.now ≤ 1939 }
    ensures { OnOk result (entries.new.items ≡ entries.old.items ++ rule_entries first (map rule_meant rules.now)) }
{
    let mut next = first;
    let mut rest = rules;
    while let [rule, after @ ..] = rest {
        entries.push(rule_entry(alloc, next, rule)?)?;
        next += rule_count(rule);
        rest = after;
    }
    Ok(())
}

/// The entries of the rules that every story has, and behind them those of the author's, the first code of which has this
/// number.
fn all_entries(
    alloc: Global,
    first: usize,
    rules: &[MeantRule],
) -> Result<Table<RuleEntry>, AllocError>
    requires few { first ≤ 1000 }
    requires few_rules { length rules.now ≤ 1939 }
    ensures { IfOk result (λ entries. entries ≡ all_entries first (map rule_meant rules.now)) }
{
    let mut entries = standard_entries(alloc)?;
    add_entries(alloc, &mut entries, first, rules)?;
    Ok(Table::new(entries))
}

/// The entry of a scene whose first code has this number.
fn scene_entry(next: usize, scene: &MeantScene) -> SceneEntry
    requires { next ≤ 5000 }
    ensures { result ≡ scene_entry next (scene_meant scene.now) }
{
    SceneEntry {
        recurring: mark_if(1, scene.recurs),
        begins: condition_number(next, &scene.begins),
        ends: condition_number(next + condition_count(&scene.begins), &scene.ends),
    }
}

/// How many codes a scene has: one for each of its conditions.
fn scene_count(scene: &MeantScene) -> usize
    ensures { result ≡ scene_count (scene_meant scene.now) }
{
    condition_count(&scene.begins) + condition_count(&scene.ends)
}

/// The entries of scenes, the first code having this number.
#[tactic(auto, unfolding(crate::specs::RuleMaking::scene_entries), using(object_words::proofs::Folds::one_behind))]
fn scene_entries(
    alloc: Global,
    first: usize,
    scenes: &[MeantScene],
) -> Result<Vec<SceneEntry>, AllocError>
    requires few { first ≤ 4900 }
    requires few_scenes { length scenes.now ≤ 50 }
    ensures { IfOk result (λ entries. entries.items ≡ scene_entries first (map scene_meant scenes.now)) }
{
    let mut entries = Vec::new(alloc);
    let mut next = first;
    let mut rest = scenes;
    while let [scene, after @ ..] = rest {
        entries.push(scene_entry(next, scene))?;
        next += scene_count(scene);
        rest = after;
    }
    Ok(entries)
}

/// How many books there are: eight, two for each scene, and the author's own.
pub fn book_count(declared: &Declared) -> u16
    requires few { length declared.now.scenes ≤ 50 }
    requires few_books { declared.now.rulebooks ≤ 100 }
    ensures { result ≡ book_count declared.now }
{
    (8 + 2 * declared.scenes.as_slice().len() + declared.rulebooks) as u16
}

/// Tables 8 to 12 of what a source declares, of the entries of its lines, of its books, of its rules, the first code of these having this number, and of its
/// scenes, whose codes stand behind them.
#[tactic(auto, unfolding(crate::specs::RuleMaking::rules_of))]
pub fn rules_of(
    alloc: Global,
    declared: &Declared,
    lines: Table<LineEntry>,
    books: Table<Book>,
    first: usize,
    rules: &[MeantRule],
    scenes: &[MeantScene],
) -> Result<RuleTables, AllocError>
    requires few { first ≤ 1000 }
    requires few_rules { length rules.now ≤ 1939 }
    requires few_scenes { length scenes.now ≤ 50 }
    ensures { IfOk result (λ made. made ≡ rules_of declared.now lines books first (map rule_meant rules.now) (map scene_meant scenes.now)) }
{
    let behind = first + codes_of_rules(rules);
    Ok(RuleTables {
        actions: action_entries(alloc, declared.actions.as_slice())?,
        grammar: lines,
        rules: all_entries(alloc, first, rules)?,
        books,
        scenes: Table::new(scene_entries(alloc, behind, scenes)?),
    })
}
