//! The codes of texts, rules and scenes, one behind the other.
ghost use Rattle.std.specs.Prelude.{◌≡◌, ◌+◌, ◌≤◌, ℕ, [], IfErr, IfOk, length, List, map, MatchOption, OnOk};
ghost use Rattle.object_words.specs.Mentions.{number_in};
ghost use Rattle.play_meaning.specs.Meant.{condition_meant, text_meant};
ghost use Rattle.play_meaning.specs.Patterns.{rule_meant};
ghost use Rattle.play_meaning.specs.ScenesMeant.{scene_meant};
ghost use Rattle.play_meaning.specs.TranslatedScripts.{in_list};
ghost use Rattle.std.specs.Option.{option_map};
ghost use Rattle.code_table.specs.Coding.{AddAllTo, AreCoded, HaveNone, StopIn};
ghost use Rattle.code_table.specs.Origins.{Asks, Describes, origins_in_rules, origins_in_scenes, origins_meant, origins_of_rule, origins_of_scene};

use crate::adding::{Coded, add_body, add_condition, add_text, number_behind};
use crate::fault::TableFault;
use object_words::Strings;
use play_meaning::Counts;
use play_meaning::tree::{Condition, MeantRule, MeantScene, Text};
use std::alloc::Global;

/// How many codes a rule has in front of all tests that they name.
fn heads_in_rule(rule: &MeantRule) -> usize
    ensures { result ≡ length (origins_of_rule (rule_meant rule.now)) }
{
    match rule.head.condition {
        Some(_) => 2,
        None => 1,
    }
}

/// How many a condition has in front of them, if there is one.
fn heads_asked(asked: &Option<Condition>) -> usize
    ensures count { result ≡ length (in_list (option_map condition_meant asked.now)) }
    ensures few { result ≤ 1 }
{
    match asked {
        Some(_) => 1,
        None => 0,
    }
}

/// How many a scene has in front of them.
fn heads_in_scene(scene: &MeantScene) -> usize
    ensures { result ≡ length (origins_of_scene (scene_meant scene.now)) }
{
    heads_asked(&scene.begins) + heads_asked(&scene.ends)
}

/// How many codes there are with those of rules in front of all tests that they name, if two bytes say it.
fn rules_counted(before: usize, rules: &[MeantRule]) -> Option<usize>
    ensures { MatchOption result (65536 ≤ before + length (origins_in_rules rules.now)) (λ heads. heads ≡ before + length (origins_in_rules rules.now)) }
{
    let mut count = before;
    let mut rest = rules;
    while let [rule, after @ ..] = rest {
        match number_behind(count, heads_in_rule(rule)) {
            Some(more) => count = usize::from(more),
            None => return None,
        }
        rest = after;
    }
    Some(count)
}

/// How many there are with those of scenes.
fn scenes_counted(before: usize, scenes: &[MeantScene]) -> Option<usize>
    ensures { MatchOption result (65536 ≤ before + length (origins_in_scenes scenes.now)) (λ heads. heads ≡ before + length (origins_in_scenes scenes.now)) }
{
    let mut count = before;
    let mut rest = scenes;
    while let [scene, after @ ..] = rest {
        match number_behind(count, heads_in_scene(scene)) {
            Some(more) => count = usize::from(more),
            None => return None,
        }
        rest = after;
    }
    Some(count)
}

/// How many codes texts, rules and scenes have in front of all tests that they name, if two bytes say it.
pub fn heads_counted(texts: &[Text], rules: &[MeantRule], scenes: &[MeantScene]) -> Option<usize>
    ensures { MatchOption result (65536 ≤ length (origins_meant texts.now rules.now scenes.now)) (λ heads. heads ≡ length (origins_meant texts.now rules.now scenes.now)) }
{
    match rules_counted(texts.len(), rules) {
        Some(before) => scenes_counted(before, scenes),
        None => None,
    }
}

/// The bytes of the codes that say texts, in turn, and of the tests that these name, where so many codes, `heads`, stand in
/// front of the first test.
fn texts_coded(
    alloc: Global,
    counts: &Counts,
    strings: &Strings,
    heads: usize,
    texts: &[Text],
) -> Result<Coded, TableFault>
    ensures coded { IfOk result (λ out. AreCoded counts.now (number_in strings.now) heads (map Describes (map text_meant texts.now)) out.codes.items out.tests.items) }
    ensures none { IfErr result (StopIn counts.now (number_in strings.now) heads (map Describes (map text_meant texts.now)) [] []) }
{
    let mut out = Coded {
        codes: Vec::new(alloc),
        tests: Vec::new(alloc),
    };
    let mut rest = texts;
    while let [text, after @ ..] = rest {
        match add_text(alloc, counts, strings, &mut out, heads, text) {
            Ok(()) => {}
            Err(fault) => return Err(fault),
        }
        rest = after;
    }
    Ok(out)
}

/// Adds the bytes of the code of a rule's condition, if it has one, and of its body's, and those of the tests that they name.
fn add_rule(
    alloc: Global,
    counts: &Counts,
    strings: &Strings,
    out: &mut Coded,
    heads: usize,
    rule: &MeantRule,
) -> Result<(), TableFault>
    ensures coded { OnOk result (AddAllTo counts.now (number_in strings.now) heads (origins_of_rule (rule_meant rule.now)) out.old out.new) }
    ensures none { IfErr result (StopIn counts.now (number_in strings.now) heads (origins_of_rule (rule_meant rule.now)) out.old.codes.items out.old.tests.items) }
{
    if let Some(condition) = &rule.head.condition {
        match add_condition(alloc, counts, out, heads, condition) {
            Ok(()) => {}
            Err(fault) => return Err(fault),
        }
    }
    add_body(alloc, counts, strings, out, heads, rule.body.as_slice())
}

/// Adds those of rules, rule by rule.
fn add_rules(
    alloc: Global,
    counts: &Counts,
    strings: &Strings,
    out: &mut Coded,
    heads: usize,
    rules: &[MeantRule],
) -> Result<(), TableFault>
    ensures coded { OnOk result (AddAllTo counts.now (number_in strings.now) heads (origins_in_rules rules.now) out.old out.new) }
    ensures none { IfErr result (StopIn counts.now (number_in strings.now) heads (origins_in_rules rules.now) out.old.codes.items out.old.tests.items) }
{
    let mut rest = rules;
    while let [rule, after @ ..] = rest {
        match add_rule(alloc, counts, strings, out, heads, rule) {
            Ok(()) => {}
            Err(fault) => return Err(fault),
        }
        rest = after;
    }
    Ok(())
}

/// Adds the bytes of the code of a condition, if there is one, and those of the tests that it names.
fn add_asked(
    alloc: Global,
    counts: &Counts,
    out: &mut Coded,
    heads: usize,
    asked: &Option<Condition>,
) -> Result<(), TableFault>
    ensures coded { (string : List ℕ → ℕ) → OnOk result (AddAllTo counts.now string heads (map Asks (in_list (option_map condition_meant asked.now))) out.old out.new) }
    ensures none { (string : List ℕ → ℕ) → IfErr result (StopIn counts.now string heads (map Asks (in_list (option_map condition_meant asked.now))) out.old.codes.items out.old.tests.items) }
{
    match asked {
        Some(condition) => add_condition(alloc, counts, out, heads, condition),
        None => Ok(()),
    }
}

/// Adds those of the conditions on which a scene begins and ends, if there are any.
fn add_scene(
    alloc: Global,
    counts: &Counts,
    out: &mut Coded,
    heads: usize,
    scene: &MeantScene,
) -> Result<(), TableFault>
    ensures coded { (string : List ℕ → ℕ) → OnOk result (AddAllTo counts.now string heads (origins_of_scene (scene_meant scene.now)) out.old out.new) }
    ensures none { (string : List ℕ → ℕ) → IfErr result (StopIn counts.now string heads (origins_of_scene (scene_meant scene.now)) out.old.codes.items out.old.tests.items) }
{
    match add_asked(alloc, counts, out, heads, &scene.begins) {
        Ok(()) => add_asked(alloc, counts, out, heads, &scene.ends),
        Err(fault) => Err(fault),
    }
}

/// Adds those of scenes, scene by scene.
fn add_scenes(
    alloc: Global,
    counts: &Counts,
    out: &mut Coded,
    heads: usize,
    scenes: &[MeantScene],
) -> Result<(), TableFault>
    ensures coded { (string : List ℕ → ℕ) → OnOk result (AddAllTo counts.now string heads (origins_in_scenes scenes.now) out.old out.new) }
    ensures none { (string : List ℕ → ℕ) → IfErr result (StopIn counts.now string heads (origins_in_scenes scenes.now) out.old.codes.items out.old.tests.items) }
{
    let mut rest = scenes;
    while let [scene, after @ ..] = rest {
        match add_scene(alloc, counts, out, heads, scene) {
            Ok(()) => {}
            Err(fault) => return Err(fault),
        }
        rest = after;
    }
    Ok(())
}

/// The bytes of the codes of texts, rules and scenes, in turn, and of the tests that these name, where so many codes,
/// `heads`, stand in front of the first test.
pub fn all_coded(
    alloc: Global,
    counts: &Counts,
    strings: &Strings,
    heads: usize,
    texts: &[Text],
    rules: &[MeantRule],
    scenes: &[MeantScene],
) -> Result<Coded, TableFault>
    ensures coded { IfOk result (λ out. AreCoded counts.now (number_in strings.now) heads (origins_meant texts.now rules.now scenes.now) out.codes.items out.tests.items) }
    ensures none { IfErr result (HaveNone counts.now (number_in strings.now) heads (origins_meant texts.now rules.now scenes.now)) }
{
    let mut out = match texts_coded(alloc, counts, strings, heads, texts) {
        Ok(out) => out,
        Err(fault) => return Err(fault),
    };
    match add_rules(alloc, counts, strings, &mut out, heads, rules) {
        Ok(()) => {}
        Err(fault) => return Err(fault),
    }
    match add_scenes(alloc, counts, &mut out, heads, scenes) {
        Ok(()) => Ok(out),
        Err(fault) => Err(fault),
    }
}
