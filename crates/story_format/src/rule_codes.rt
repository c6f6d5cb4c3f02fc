//! The codes that rules and scenes name, in turn, and what each is for.
ghost use Rattle.std.specs.Prelude.{◌≡◌, OnOk, ◌++◌};
ghost use Rattle.story_format.specs.RuleChecks.{code_if, codes_in_rule, codes_in_rules, codes_in_scene, codes_in_scenes, codes_in_tables, test_if, uses_in_rule, uses_in_rules, uses_in_scene, uses_in_scenes, uses_in_tables};

use crate::place::NONE;
use crate::rule_entry::{RuleBody, RuleEntry};
use crate::rule_tables::{RuleTables, SceneEntry};
use play_meaning::Use;
use std::alloc::AllocError;

/// Adds the code of a test, if there is one.
fn add_test(numbers: &mut Vec<u16>, code: u16) -> Result<(), AllocError>
    ensures { OnOk result (numbers.new.items ≡ numbers.old.items ++ code_if code) }
{
    if code != NONE {
        numbers.push(code)?;
    }
    Ok(())
}

/// Adds the codes that a rule names.
fn add_codes_of(numbers: &mut Vec<u16>, rule: &RuleEntry) -> Result<(), AllocError>
    ensures { OnOk result (numbers.new.items ≡ numbers.old.items ++ codes_in_rule rule.now) }
{
    add_test(numbers, rule.condition)?;
    if let RuleBody::Code(code) = rule.body {
        numbers.push(code)?;
    }
    Ok(())
}

/// Adds the codes that rules name: of each its condition's test, if it has one, and its body's, if that is a code.
fn add_rule_codes(numbers: &mut Vec<u16>, rules: &[RuleEntry]) -> Result<(), AllocError>
    ensures { OnOk result (numbers.new.items ≡ numbers.old.items ++ codes_in_rules rules.now) }
{
    let mut rest = rules;
    while let [rule, after @ ..] = rest {
        add_codes_of(numbers, rule)?;
        rest = after;
    }
    Ok(())
}

/// Adds the codes that a scene names.
fn add_tests_of(numbers: &mut Vec<u16>, scene: &SceneEntry) -> Result<(), AllocError>
    ensures { OnOk result (numbers.new.items ≡ numbers.old.items ++ codes_in_scene scene.now) }
{
    add_test(numbers, scene.begins)?;
    add_test(numbers, scene.ends)
}

/// Adds the codes that scenes name: of each the test by which it begins, if there is one, and that by which it ends.
fn add_scene_codes(numbers: &mut Vec<u16>, scenes: &[SceneEntry]) -> Result<(), AllocError>
    ensures { OnOk result (numbers.new.items ≡ numbers.old.items ++ codes_in_scenes scenes.now) }
{
    let mut rest = scenes;
    while let [scene, after @ ..] = rest {
        add_tests_of(numbers, scene)?;
        rest = after;
    }
    Ok(())
}

/// Adds the codes that rules name, and then those that scenes name.
pub fn add_codes(numbers: &mut Vec<u16>, tables: &RuleTables) -> Result<(), AllocError>
    ensures { OnOk result (numbers.new.items ≡ numbers.old.items ++ codes_in_tables tables.now) }
{
    add_rule_codes(numbers, tables.rules.as_slice())?;
    add_scene_codes(numbers, tables.scenes.as_slice())
}

/// Adds that a code is a test, if there is one.
fn add_test_use(uses: &mut Vec<Use>, code: u16) -> Result<(), AllocError>
    ensures { OnOk result (uses.new.items ≡ uses.old.items ++ test_if code) }
{
    if code != NONE {
        uses.push(Use::Test(0))?;
    }
    Ok(())
}

/// Adds what the codes are for that a rule names.
fn add_uses_of(uses: &mut Vec<Use>, rule: &RuleEntry) -> Result<(), AllocError>
    ensures { OnOk result (uses.new.items ≡ uses.old.items ++ uses_in_rule rule.now) }
{
    add_test_use(uses, rule.condition)?;
    if let RuleBody::Code(_) = rule.body {
        uses.push(Use::Body)?;
    }
    Ok(())
}

/// Adds what the codes are for that rules name.
fn add_rule_uses(uses: &mut Vec<Use>, rules: &[RuleEntry]) -> Result<(), AllocError>
    ensures { OnOk result (uses.new.items ≡ uses.old.items ++ uses_in_rules rules.now) }
{
    let mut rest = rules;
    while let [rule, after @ ..] = rest {
        add_uses_of(uses, rule)?;
        rest = after;
    }
    Ok(())
}

/// Adds what the codes are for that a scene names.
fn add_test_uses_of(uses: &mut Vec<Use>, scene: &SceneEntry) -> Result<(), AllocError>
    ensures { OnOk result (uses.new.items ≡ uses.old.items ++ uses_in_scene scene.now) }
{
    add_test_use(uses, scene.begins)?;
    add_test_use(uses, scene.ends)
}

/// Adds what the codes are for that scenes name.
fn add_scene_uses(uses: &mut Vec<Use>, scenes: &[SceneEntry]) -> Result<(), AllocError>
    ensures { OnOk result (uses.new.items ≡ uses.old.items ++ uses_in_scenes scenes.now) }
{
    let mut rest = scenes;
    while let [scene, after @ ..] = rest {
        add_test_uses_of(uses, scene)?;
        rest = after;
    }
    Ok(())
}

/// Adds what the codes are for that rules and then scenes name.
pub fn add_uses(uses: &mut Vec<Use>, tables: &RuleTables) -> Result<(), AllocError>
    ensures { OnOk result (uses.new.items ≡ uses.old.items ++ uses_in_tables tables.now) }
{
    add_rule_uses(uses, tables.rules.as_slice())?;
    add_scene_uses(uses, tables.scenes.as_slice())
}
