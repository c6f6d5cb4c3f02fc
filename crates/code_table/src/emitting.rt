//! The codes of texts, rules and scenes, as a table.
ghost use Rattle.std.specs.Prelude.{◌<◌, IfErr, IfOk, OnOk, length};
ghost use Rattle.object_words.specs.Mentions.{number_in};
ghost use Rattle.story_code.specs.Emits.{AreSpelled};
ghost use Rattle.code_table.specs.Emitted.{AllFit, AreTableFor, CanBeSaid, HaveNoTable, codes_of_origins};
ghost use Rattle.code_table.specs.Origins.{origins_meant};

use crate::adding::{Coded, number_behind};
use crate::coding::{all_coded, heads_counted};
use crate::fault::TableFault;
use object_words::Strings;
use play_meaning::Counts;
use play_meaning::tree::{MeantRule, MeantScene, Text};
use std::alloc::Global;
use world_meaning::TextBytes;

/// The bytes of the codes of texts, rules and scenes: of each text the code that says it; behind these, rule by rule, the
/// code of its condition, if it has one, and of its body; behind these, scene by scene, those of the conditions on which it
/// begins and ends, if there are any; and behind all of these those of the tests that they name, in turn. Each string goes
/// by its number among `strings`. By what there is in `counts`, and as many codes as they are, they are a table, whose first
/// codes are descriptions, and behind them tests inside no loop and bodies.
///
/// # Errors
///
/// `TooLong` only where one of them doesn't fit, or bytes can't say its codes and their tests; `TooMany` only where there are
/// more than 65,535 codes; and `Memory`.
pub fn code_table(
    alloc: Global,
    counts: &Counts,
    strings: &Strings,
    texts: &[Text],
    rules: &[MeantRule],
    scenes: &[MeantScene],
) -> Result<Vec<TextBytes>, TableFault>
    ensures codes { IfOk result (λ codes. AreSpelled codes.items (codes_of_origins (number_in strings.now) (origins_meant texts.now rules.now scenes.now))) }
    ensures fit { OnOk result (AllFit counts.now (number_in strings.now) (origins_meant texts.now rules.now scenes.now)) }
    ensures said { OnOk result (CanBeSaid (number_in strings.now) (origins_meant texts.now rules.now scenes.now)) }
    ensures table { IfOk result (λ codes. AreTableFor counts.now (origins_meant texts.now rules.now scenes.now) codes.items) }
    ensures few { IfOk result (λ codes. length codes.items < 65536) }
    ensures none { IfErr result (HaveNoTable counts.now (number_in strings.now) (origins_meant texts.now rules.now scenes.now)) }
{
    let Some(heads) = heads_counted(texts, rules, scenes) else {
        return Err(TableFault::TooMany);
    };
    let out = match all_coded(alloc, counts, strings, heads, texts, rules, scenes) {
        Ok(out) => out,
        Err(fault) => return Err(fault),
    };
    let Some(_) = number_behind(heads, out.tests.len()) else {
        return Err(TableFault::TooMany);
    };
    let Coded { codes, tests } = out;
    let mut codes = codes;
    let mut tests = tests;
    match codes.append(&mut tests) {
        Ok(()) => Ok(codes),
        Err(_) => Err(TableFault::Memory),
    }
}
