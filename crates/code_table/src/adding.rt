//! The code of a text, a condition or a body, behind those of others.
ghost use Rattle.std.specs.Prelude.{◌≡◌, ◌+◌, ◌++◌, ℕ, drop, take, IfErr, length, List, OnOk};
ghost use Rattle.object_words.specs.Mentions.{number_in};
ghost use Rattle.play_meaning.specs.Meant.{body_meant, condition_meant, text_meant};
ghost use Rattle.code_table.specs.Coding.{AddsTo, HasNoCode, not_emitted, number_behind};
ghost use Rattle.code_table.specs.Origins.{Asks, Describes, Does};

use crate::fault::TableFault;
use object_words::Strings;
use play_meaning::Counts;
use play_meaning::tree::{Condition, Phrase, Text};
use std::alloc::{AllocError, Global};
use story_code::{EmitFault, body_codes, condition_codes, description_codes};
use world_meaning::TextBytes;

/// The bytes of codes put together, and of the tests that they name in turn.
#[derive(Drop)]
pub struct Coded {
    pub codes: Vec<TextBytes>,
    pub tests: Vec<TextBytes>,
}

/// The number behind so many heads and tests, if two bytes say it.
pub fn number_behind(heads: usize, tests: usize) -> Option<u16>
    ensures { result ≡ number_behind heads tests }
{
    let number = heads.checked_add(tests)?;
    u16::try_from(number).ok()
}

/// Puts the bytes of a code behind those of others, and those of the tests that it names behind other tests.
fn keep(out: &mut Coded, emitted: Vec<TextBytes>) -> Result<(), AllocError>
    ensures codes { OnOk result (out.new.codes.items ≡ out.old.codes.items ++ take 1 emitted.items) }
    ensures tests { OnOk result (out.new.tests.items ≡ out.old.tests.items ++ drop 1 emitted.items) }
{
    let mut code = emitted;
    if code.is_empty() {
        return Ok(());
    }
    let mut named = code.split_off(1)?;
    out.codes.append(&mut code)?;
    out.tests.append(&mut named)
}

/// Why a code isn't added that isn't emitted.
fn not_emitted(fault: EmitFault) -> TableFault
    ensures { result ≡ not_emitted fault }
{
    match fault {
        EmitFault::TooLong => TableFault::TooLong,
        EmitFault::Memory => TableFault::Memory,
    }
}

/// Adds the bytes of the code that says a text, and those of the tests that it names, behind those put together, where so
/// many codes, `heads`, stand in front of the first test.
pub fn add_text(
    alloc: Global,
    counts: &Counts,
    strings: &Strings,
    out: &mut Coded,
    heads: usize,
    text: &Text,
) -> Result<(), TableFault>
    ensures coded { OnOk result (AddsTo counts.now (number_in strings.now) heads (Describes (text_meant text.now)) out.old out.new) }
    ensures none { IfErr result (HasNoCode counts.now (number_in strings.now) (heads + length out.old.tests.items) (Describes (text_meant text.now))) }
{
    let Some(first) = number_behind(heads, out.tests.len()) else {
        return Err(TableFault::TooMany);
    };
    match description_codes(alloc, counts, strings, first, text) {
        Ok(emitted) => match keep(out, emitted) {
            Ok(()) => Ok(()),
            Err(_) => Err(TableFault::Memory),
        },
        Err(fault) => Err(not_emitted(fault)),
    }
}

/// Adds those of the code that answers a condition.
pub fn add_condition(
    alloc: Global,
    counts: &Counts,
    out: &mut Coded,
    heads: usize,
    condition: &Condition,
) -> Result<(), TableFault>
    ensures coded { (string : List ℕ → ℕ) → OnOk result (AddsTo counts.now string heads (Asks (condition_meant condition.now)) out.old out.new) }
    ensures none { (string : List ℕ → ℕ) → IfErr result (HasNoCode counts.now string (heads + length out.old.tests.items) (Asks (condition_meant condition.now))) }
{
    let Some(first) = number_behind(heads, out.tests.len()) else {
        return Err(TableFault::TooMany);
    };
    match condition_codes(alloc, counts, first, condition) {
        Ok(emitted) => match keep(out, emitted) {
            Ok(()) => Ok(()),
            Err(_) => Err(TableFault::Memory),
        },
        Err(fault) => Err(not_emitted(fault)),
    }
}

/// Adds those of the code of a rule's body.
pub fn add_body(
    alloc: Global,
    counts: &Counts,
    strings: &Strings,
    out: &mut Coded,
    heads: usize,
    body: &[Phrase],
) -> Result<(), TableFault>
    ensures coded { OnOk result (AddsTo counts.now (number_in strings.now) heads (Does (body_meant body.now)) out.old out.new) }
    ensures none { IfErr result (HasNoCode counts.now (number_in strings.now) (heads + length out.old.tests.items) (Does (body_meant body.now))) }
{
    let Some(first) = number_behind(heads, out.tests.len()) else {
        return Err(TableFault::TooMany);
    };
    match body_codes(alloc, counts, strings, first, body) {
        Ok(emitted) => match keep(out, emitted) {
            Ok(()) => Ok(()),
            Err(_) => Err(TableFault::Memory),
        },
        Err(fault) => Err(not_emitted(fault)),
    }
}
