//! What tables 8 to 12 of a story say, where there are so many of what they name.
ghost use Rattle.std.specs.Prelude.{◌≡◌, IfOk, count_by, nat_le, nat_lt, slice_get, true};
ghost use Rattle.std.specs.List.{list_all};
ghost use Rattle.story_format.specs.RuleChecks.{are_right_actions, are_right_books, are_right_lines, are_right_rules, are_right_scenes, begin_with_actions, has_nouns, is_number_or_none, is_right_action, is_right_aspect, is_right_body, is_right_line, is_right_need, is_right_rule, is_right_scene, is_right_side, is_right_token, is_same_action, is_slot_number, lists_what_is_there};

use crate::actions::action_entries;
use crate::grammar_facts::{DIRECTION, SOMETHING};
use crate::place::NONE;
use crate::rule_entry::{Aspect, PropertySide, RuleBody, RuleEntry};
use crate::rule_tables::{ActionEntry, Book, LineEntry, RuleTables, SceneEntry};
use command_grammar::MOST_TOKENS;
use play_meaning::Counts;
use std::alloc::{AllocError, Global};

/// The number of a byte that stands for none.
const NO_BYTE: u8 = 255;

/// The most actions of a story.
const MOST_ACTIONS: usize = 200;

/// The most lines of a grammar.
const MOST_LINES: usize = 65_535;

/// The most rules of a story.
const MOST_RULES: usize = 2000;

/// The most properties that a rule asks of one noun, or of the place.
const MOST_PROPERTIES: usize = 9;

/// How many standard rules there are.
const STANDARD_RULES: u8 = 61;

/// The most rulebooks of the author's.
const MOST_OWN_BOOKS: usize = 100;

/// The most scenes.
const MOST_SCENES: usize = 50;

fn is_same_action(one: &ActionEntry, other: &ActionEntry) -> bool
    ensures { result ≡ is_same_action one.now other.now }
{
    one.nouns == other.nouns
        && one.noun == other.noun
        && one.second == other.second
        && one.marks == other.marks
}

/// Whether the first actions are these.
#[tactic(auto, unfolding(crate::specs::RuleChecks::begin_with_actions))]
fn begin_with_actions(actions: &[ActionEntry], others: &[ActionEntry]) -> bool
    ensures { result ≡ begin_with_actions actions.now others.now }
{
    let mut actions = actions;
    let mut others = others;
    while let [other, behind @ ..] = others {
        match actions {
            [action, after @ ..] if is_same_action(action, other) => actions = after,
            _ => return false,
        }
        others = behind;
    }
    true
}

/// Whether a number says what is needed of a noun that the action has, or that it hasn't it.
fn is_right_need(has: bool, need: u8) -> bool
    ensures { result ≡ is_right_need has need }
{
    if has { need <= 2 } else { need == NO_BYTE }
}

#[tactic(auto, unfolding(crate::specs::RuleChecks::is_right_action))]
fn is_right_action(action: &ActionEntry) -> bool
    ensures { result ≡ is_right_action action.now }
{
    action.nouns <= 2
        && is_right_need(1 <= action.nouns, action.noun)
        && is_right_need(2 <= action.nouns, action.second)
        && action.marks <= 3
}

fn each_action_is_right(actions: &[ActionEntry]) -> bool
    ensures { result ≡ list_all is_right_action actions.now }
{
    actions.iter().all(is_right_action)
}

/// Whether the sixteen actions stand first, behind them 184 at most, and each is right.
#[tactic(auto, unfolding(crate::specs::RuleChecks::are_right_actions))]
fn are_right_actions(alloc: Global, actions: &[ActionEntry]) -> Result<bool, AllocError>
    ensures { IfOk result (λ right. right ≡ are_right_actions actions.now) }
{
    let standard = action_entries(alloc, &[])?;
    Ok(
        actions.len() <= MOST_ACTIONS
            && begin_with_actions(actions, standard.as_slice())
            && each_action_is_right(actions),
    )
}

/// Whether a number in a line stands for a slot, and not for a string.
pub fn is_slot_number(number: u16) -> bool
    ensures { result ≡ is_slot_number number }
{
    number == SOMETHING || number == DIRECTION
}

fn is_right_token(strings: u16, number: u16) -> bool
    ensures { result ≡ is_right_token strings number }
{
    is_slot_number(number) || number < strings
}

fn slot_count(tokens: &[u16]) -> usize
    ensures { result ≡ count_by is_slot_number tokens.now }
{
    tokens
        .iter()
        .filter(|number| is_slot_number(**number))
        .count()
}

fn are_right_tokens(strings: u16, tokens: &[u16]) -> bool
    ensures { result ≡ list_all (is_right_token strings) tokens.now }
{
    tokens.iter().all(|number| is_right_token(strings, *number))
}

/// Whether the action of a number is there, and has so many nouns.
fn has_nouns(count: usize, actions: &[ActionEntry], number: u8) -> bool
    ensures { result ≡ has_nouns count (slice_get actions.now number) }
{
    match actions.get(usize::from(number)) {
        None => false,
        Some(action) => usize::from(action.nouns) == count,
    }
}

#[tactic(auto, unfolding(crate::specs::RuleChecks::is_right_line))]
fn is_right_line(counts: &Counts, actions: &[ActionEntry], line: &LineEntry) -> bool
    ensures { result ≡ is_right_line counts.now actions.now line.now }
{
    let tokens = line.tokens.as_slice();
    has_nouns(slot_count(tokens), actions, line.action)
        && tokens.len() <= MOST_TOKENS
        && are_right_tokens(counts.strings, tokens)
}

fn each_line_is_right(counts: &Counts, actions: &[ActionEntry], lines: &[LineEntry]) -> bool
    ensures { result ≡ list_all (is_right_line counts.now actions.now) lines.now }
{
    lines
        .iter()
        .all(|line| is_right_line(counts, actions, line))
}

/// Whether there are no more lines than two bytes count, each with as many slots as its action has nouns.
fn are_right_lines(counts: &Counts, actions: &[ActionEntry], lines: &[LineEntry]) -> bool
    ensures { result ≡ are_right_lines counts.now actions.now lines.now }
{
    lines.len() <= MOST_LINES && each_line_is_right(counts, actions, lines)
}

/// Whether a number is none, or that of one of so many.
fn is_byte_or_none(count: u16, number: u8) -> bool
    ensures { result ≡ is_number_or_none 255 count number }
{
    number == NO_BYTE || u16::from(number) < count
}

fn is_code_or_none(count: u16, number: u16) -> bool
    ensures { result ≡ is_number_or_none 65535 count number }
{
    number == NONE || number < count
}

fn is_right_side(flags: u16, side: &PropertySide) -> bool
    ensures { result ≡ is_right_side flags side.now }
{
    u16::from(side.property) < flags && side.side <= 3
}

fn are_right_sides(flags: u16, sides: &[PropertySide]) -> bool
    ensures { result ≡ list_all (is_right_side flags) sides.now }
{
    sides.iter().all(|side| is_right_side(flags, side))
}

#[tactic(auto, unfolding(crate::specs::RuleChecks::is_right_aspect))]
fn is_right_aspect(counts: &Counts, aspect: &Aspect) -> bool
    ensures { result ≡ is_right_aspect counts.now aspect.now }
{
    match aspect {
        Aspect::Anything => true,
        Aspect::Object(object) => *object < counts.objects,
        Aspect::Kind(kind) => {
            u16::from(kind.kind) < counts.kinds
                && kind.properties.as_slice().len() <= MOST_PROPERTIES
                && are_right_sides(counts.flags, kind.properties.as_slice())
        }
        Aspect::Unknown(_) => false,
    }
}

#[tactic(auto, unfolding(crate::specs::RuleChecks::is_right_body))]
fn is_right_body(codes: u16, body: &RuleBody) -> bool
    ensures { result ≡ is_right_body codes body.now }
{
    match body {
        RuleBody::Code(code) => *code < codes,
        RuleBody::Standard(rule) => 1 <= *rule && *rule <= STANDARD_RULES,
        RuleBody::Unknown(_) => false,
    }
}

#[tactic(auto, unfolding(crate::specs::RuleChecks::is_right_rule))]
fn is_right_rule(counts: &Counts, rule: &RuleEntry) -> bool
    ensures { result ≡ is_right_rule counts.now rule.now }
{
    rule.book < counts.books
        && is_byte_or_none(counts.actions, rule.action)
        && is_right_aspect(counts, &rule.noun)
        && is_right_aspect(counts, &rule.second)
        && is_right_aspect(counts, &rule.place)
        && is_byte_or_none(counts.scenes, rule.scene)
        && is_code_or_none(counts.codes, rule.condition)
        && is_right_body(counts.codes, &rule.body)
}

fn each_is_right(counts: &Counts, rules: &[RuleEntry]) -> bool
    ensures { result ≡ list_all (is_right_rule counts.now) rules.now }
{
    rules.iter().all(|rule| is_right_rule(counts, rule))
}

fn are_below(count: usize, numbers: &[u16]) -> bool
    ensures { result ≡ list_all (λ n. nat_lt n count) numbers.now }
{
    numbers.iter().all(|number| usize::from(*number) < count)
}

fn list_what_is_there(rules: usize, books: &[Book]) -> bool
    ensures { result ≡ list_all (lists_what_is_there rules) books.now }
{
    books
        .iter()
        .all(|book| are_below(rules, book.rules.as_slice()))
}

/// Whether there are the books of so many scenes, and the author's own, and each lists rules that are there.
#[tactic(auto, unfolding(crate::specs::RuleChecks::are_right_books))]
fn are_right_books(scenes: usize, rules: usize, books: &[Book]) -> bool
    requires { nat_le scenes 50 ≡ true }
    ensures { result ≡ are_right_books scenes rules books.now }
{
    let first = 8 + 2 * scenes;
    first <= books.len()
        && books.len() <= first + MOST_OWN_BOOKS
        && list_what_is_there(rules, books)
}

#[tactic(auto, unfolding(crate::specs::RuleChecks::is_right_scene))]
fn is_right_scene(counts: &Counts, scene: &SceneEntry) -> bool
    ensures { result ≡ is_right_scene counts.now scene.now }
{
    scene.recurring <= 1
        && is_code_or_none(counts.codes, scene.begins)
        && is_code_or_none(counts.codes, scene.ends)
}

fn each_scene_is_right(counts: &Counts, scenes: &[SceneEntry]) -> bool
    ensures { result ≡ list_all (is_right_scene counts.now) scenes.now }
{
    scenes.iter().all(|scene| is_right_scene(counts, scene))
}

/// Whether there are few scenes, begun and ended by codes that are there.
fn are_right_scenes(counts: &Counts, scenes: &[SceneEntry]) -> bool
    ensures { result ≡ are_right_scenes counts.now scenes.now }
{
    scenes.len() <= MOST_SCENES && each_scene_is_right(counts, scenes)
}

/// Whether tables 8 to 12 are those of a story: the sixteen actions and behind them the author's, lines of a grammar, rules
/// and scenes that name what is there, and books that list such. Whether a book's rules are its own is asked apart.
#[tactic(auto, unfolding(crate::specs::RuleChecks::are_right_rules))]
pub fn are_right_rules(
    alloc: Global,
    counts: &Counts,
    rules: &RuleTables,
) -> Result<bool, AllocError>
    ensures { IfOk result (λ right. right ≡ are_right_rules counts.now rules.now) }
{
    let actions = are_right_actions(alloc, rules.actions.as_slice())?;
    let scenes = rules.scenes.as_slice();
    Ok(
        are_right_scenes(counts, scenes)
            && are_right_books(
                scenes.len(),
                rules.rules.as_slice().len(),
                rules.books.as_slice(),
            )
            && actions
            && are_right_lines(counts, rules.actions.as_slice(), rules.grammar.as_slice())
            && rules.rules.as_slice().len() <= MOST_RULES
            && each_is_right(counts, rules.rules.as_slice()),
    )
}
