//! The codes of trees: of a rule's body, of a condition, of a description, each with the tests that it names.
ghost use Rattle.std.specs.Prelude.{◌≡◌, ℕ, ◌∷◌, false, IfErr, IfOk, OnOk, Some};
ghost use Rattle.object_words.specs.Mentions.{number_in};
ghost use Rattle.play_meaning.specs.Meant.{body_meant, condition_meant, text_meant};
ghost use Rattle.play_meaning.specs.TranslatedScripts.{description_part, test_part};
ghost use Rattle.play_meaning.specs.Translation.{Part};
ghost use Rattle.play_meaning.specs.declared.operand.Use.TheVariants as role;
ghost use Rattle.story_code.specs.Emits.{AreEmitted, AreSpelled, IfTooLong, IsOnlyMemory, IsUnfit, whole_body};
ghost use Rattle.story_code.specs.Emitting.{can_say_all, emitted, nothing_from};
ghost use Rattle.story_code.specs.FaultTexts.{emit_fault_text};
ghost use Rattle.story_code.specs.Fitting.{BodyFits, ConditionFits, TextFits};
ghost use Rattle.story_code.specs.ShortLaws.{IsCountedInTwoBytes, IsNumberedFrom, IsShortBody, IsShortCondition, IsShortDescription};
ghost use Rattle.story_code.specs.SoundlyEmitted.{AreSoundAnywhere, among};

use crate::emitting::condition::emit_condition;
use crate::emitting::output::Output;
use crate::emitting::phrase::emit_body;
use crate::emitting::text::emit_text;
use crate::encoding::spell;
use crate::fitting::{body_fits, condition_fits, description_fits};
use object_words::Strings;
use play_meaning::tree::{Condition, Phrase, Text};
use play_meaning::{Counts, Instruction};
use std::alloc::{AllocError, Global};
use std::error::Error;
use std::fmt;
use world_meaning::{Listed, TextBytes};

/// Why no codes were emitted.
#[derive(Clone, Copy, Debug, Drop, PartialEq, Eq)]
pub enum EmitFault {
    /// The tree names what isn't there, or takes more than sixty-four operands at once or nine loops; or a code takes more
    /// than 65,535 bytes, or a test's number more than two.
    TooLong,
    Memory,
}

impl EmitFault {
    /// What is wrong, in words.
    pub fn text(self) -> &'static str
        ensures { result.now ≡ emit_fault_text self }
    {
        match self {
            EmitFault::TooLong => "too long",
            EmitFault::Memory => "out of memory",
        }
    }
}

impl fmt::Display for EmitFault {
    ghost output = { λ fault. Some (emit_fault_text fault) };

    fn fmt<W: fmt::Write>(&self, f: &mut fmt::Formatter<W>) -> fmt::Result {
        f.write_str(self.text())
    }
}

impl Error for EmitFault {}

/// The bytes of the code of a rule's body, and behind it those of the tests that it names, which are numbered from `first`
/// on. Each string goes by its number among `strings`. By what there is in `counts` they are sound codes, whatever number the
/// body's code has in front of `first`, and however many codes there are that hold all of them. Codes are given only of a
/// body that fits, whatever number its code has and however many codes there are; and so of a condition and a description.
///
/// # Errors
///
/// `TooLong` where the tree doesn't fit, and else only where bytes can't say the codes. What at most 500 words say within the limits of the
/// language, with at most 32 numbers in an expression, isn't too long, as long as two bytes tell its tests by their numbers.
/// And `Memory`.
pub fn body_codes(
    alloc: Global,
    counts: &Counts,
    strings: &Strings,
    first: u16,
    body: &[Phrase],
) -> Result<Vec<TextBytes>, EmitFault>
    ensures codes { IfOk result (λ codes. AreEmitted (whole_body (number_in strings.now) (body_meant body.now) first 0) codes.items) }
    ensures fits { OnOk result ((own codes : ℕ) → BodyFits (among counts.now own codes) (number_in strings.now) 0 (body_meant body.now)) }
    ensures sound { IfOk result (λ codes. AreSoundAnywhere counts.now role.Body first (whole_body (number_in strings.now) (body_meant body.now) first 0) codes.items) }
    ensures too_long { IfTooLong result (BodyFits counts.now (number_in strings.now) 0 (body_meant body.now)
        → can_say_all (whole_body (number_in strings.now) (body_meant body.now) first 0) ≡ false) }
    ensures unfit { (BodyFits counts.now (number_in strings.now) 0 (body_meant body.now) → ⊥) → IsUnfit result }
    ensures short { IsShortBody counts.now (number_in strings.now) (body_meant body.now)
        → IsNumberedFrom first (whole_body (number_in strings.now) (body_meant body.now) first 0) → IsOnlyMemory result }
{
    told_in_two_bytes(counts);
    if !body_fits(counts, strings, body) {
        return Err(EmitFault::TooLong);
    }
    let Ok(out) = body_output(alloc, strings, first, body) else {
        return Err(EmitFault::Memory);
    };
    finish(alloc, &out)
}

/// The bytes of the code that answers a condition, and behind it those of the tests that it names, which are numbered from
/// `first` on: sound codes, as a body's are.
///
/// # Errors
///
/// `TooLong` where the tree doesn't fit, and else only where bytes can't say the codes. What at most 500 words say within the limits of the
/// language, with at most 32 numbers in an expression, isn't too long, as long as two bytes tell its tests by their numbers.
/// And `Memory`.
pub fn condition_codes(
    alloc: Global,
    counts: &Counts,
    first: u16,
    condition: &Condition,
) -> Result<Vec<TextBytes>, EmitFault>
    ensures codes { IfOk result (λ codes. AreEmitted (test_part (condition_meant condition.now) first 0) codes.items) }
    ensures fits { OnOk result ((own codes : ℕ) → ConditionFits (among counts.now own codes) 0 0 (condition_meant condition.now)) }
    ensures sound { IfOk result (λ codes. AreSoundAnywhere counts.now (role.Test 0) first (test_part (condition_meant condition.now) first 0) codes.items) }
    ensures too_long { IfTooLong result (ConditionFits counts.now 0 0 (condition_meant condition.now)
        → can_say_all (test_part (condition_meant condition.now) first 0) ≡ false) }
    ensures unfit { (ConditionFits counts.now 0 0 (condition_meant condition.now) → ⊥) → IsUnfit result }
    ensures short { IsShortCondition counts.now (condition_meant condition.now) → IsNumberedFrom first (test_part (condition_meant condition.now) first 0) → IsOnlyMemory result }
{
    told_in_two_bytes(counts);
    if !condition_fits(counts, condition) {
        return Err(EmitFault::TooLong);
    }
    let Ok(out) = condition_output(alloc, first, condition) else {
        return Err(EmitFault::Memory);
    };
    finish(alloc, &out)
}

/// The bytes of the code that says a description, and behind it those of the tests that it names, which are numbered from
/// `first` on: sound codes, as a body's are. Each string goes by its number among `strings`.
///
/// # Errors
///
/// `TooLong` where the tree doesn't fit, and else only where bytes can't say the codes. What at most 500 words say within the limits of the
/// language, with at most 32 numbers in an expression, isn't too long, as long as two bytes tell its tests by their numbers.
/// And `Memory`.
pub fn description_codes(
    alloc: Global,
    counts: &Counts,
    strings: &Strings,
    first: u16,
    text: &Text,
) -> Result<Vec<TextBytes>, EmitFault>
    ensures codes { IfOk result (λ codes. AreEmitted (description_part (number_in strings.now) (text_meant text.now) first 0) codes.items) }
    ensures fits { OnOk result ((own codes : ℕ) → TextFits (among counts.now own codes) role.Describing (number_in strings.now) 0 (text_meant text.now)) }
    ensures sound { IfOk result (λ codes. AreSoundAnywhere counts.now role.Describing first (description_part (number_in strings.now) (text_meant text.now) first 0) codes.items) }
    ensures too_long { IfTooLong result (TextFits counts.now role.Describing (number_in strings.now) 0 (text_meant text.now)
        → can_say_all (description_part (number_in strings.now) (text_meant text.now) first 0) ≡ false) }
    ensures unfit { (TextFits counts.now role.Describing (number_in strings.now) 0 (text_meant text.now) → ⊥) → IsUnfit result }
    ensures short { IsShortDescription counts.now (number_in strings.now) (text_meant text.now)
        → IsNumberedFrom first (description_part (number_in strings.now) (text_meant text.now) first 0) → IsOnlyMemory result }
{
    told_in_two_bytes(counts);
    if !description_fits(counts, strings, text) {
        return Err(EmitFault::TooLong);
    }
    let Ok(out) = description_output(alloc, strings, first, text) else {
        return Err(EmitFault::Memory);
    };
    finish(alloc, &out)
}

/// What is emitted of a rule's body, its end included.
#[tactic(auto, using(crate::proofs::Followed::emitted_seq))]
fn body_output(
    alloc: Global,
    strings: &Strings,
    first: u16,
    body: &[Phrase],
) -> Result<Output, AllocError>
    ensures { IfOk result (λ out. out ≡ emitted (nothing_from first) (whole_body (number_in strings.now) (body_meant body.now))) }
{
    let mut out = Output::new(alloc, first);
    emit_body(alloc, &mut out, strings, 0, body)?;
    out.push(Instruction::Done)?;
    Ok(out)
}

/// What is emitted of a condition, its answer included.
#[tactic(auto, using(crate::proofs::Followed::emitted_seq))]
fn condition_output(alloc: Global, first: u16, condition: &Condition) -> Result<Output, AllocError>
    ensures { IfOk result (λ out. out ≡ emitted (nothing_from first) (test_part (condition_meant condition.now))) }
{
    let mut out = Output::new(alloc, first);
    emit_condition(alloc, &mut out, 0, condition)?;
    out.push(Instruction::Answer)?;
    Ok(out)
}

/// What is emitted of a description, its end included.
#[tactic(auto, using(crate::proofs::Followed::emitted_seq))]
fn description_output(
    alloc: Global,
    strings: &Strings,
    first: u16,
    text: &Text,
) -> Result<Output, AllocError>
    ensures { IfOk result (λ out. out ≡ emitted (nothing_from first) (description_part (number_in strings.now) (text_meant text.now))) }
{
    let mut out = Output::new(alloc, first);
    emit_text(alloc, &mut out, strings, 0, text)?;
    out.push(Instruction::Done)?;
    Ok(out)
}

/// Does nothing but read the counts, each of which has two bytes.
fn told_in_two_bytes(counts: &Counts)
    ensures { IsCountedInTwoBytes counts.now }
{
    let _objects = counts.objects;
    let _strings = counts.strings;
    let _books = counts.books;
}

/// The bytes of what was emitted, whatever it was.
fn finish(alloc: Global, out: &Output) -> Result<Vec<TextBytes>, EmitFault>
    ensures codes { (first : ℕ) (part : Part) → out.now ≡ emitted (nothing_from first) part → IfOk result (λ codes. AreEmitted (part first 0) codes.items) }
    ensures too_long { (first : ℕ) (part : Part) → out.now ≡ emitted (nothing_from first) part → IfErr result (λ fault. fault ≡ EmitFault.TooLong → can_say_all (part first 0) ≡ false) }
{
    let Some((code, tests)) = out.kept() else {
        return Err(EmitFault::TooLong);
    };
    match spell_all(alloc, code, tests) {
        Ok(codes) => Ok(codes),
        Err(_) => Err(EmitFault::Memory),
    }
}

/// The bytes of a code, and of others.
fn spell_all(
    alloc: Global,
    code: &[Instruction],
    tests: &[Listed<Instruction>],
) -> Result<Vec<TextBytes>, AllocError>
    ensures { IfOk result (λ bytes. AreSpelled bytes.items (code.now ∷ tests.now)) }
{
    let mut all = Vec::new(alloc);
    all.push(TextBytes::new(spell(alloc, code)?))?;
    let mut rest = tests;
    while let [test, after @ ..] = rest {
        all.push(TextBytes::new(spell(alloc, test.as_slice())?))?;
        rest = after;
    }
    Ok(all)
}
