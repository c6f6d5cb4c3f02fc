//! Whether what an instruction's arguments name is there.
ghost use Rattle.std.specs.Prelude.{◌≡◌, slice_index_or};
ghost use Rattle.play_meaning.specs.Operands.{is_from_to, is_test, may_hold, may_open, names_what_is_there};

use crate::row::opcode;
use play_meaning::{Counts, Instruction, Use};

/// Whether a test has a greater number than the code that names it, and is there.
fn is_test(counts: &Counts, test: u16) -> bool
    ensures { result ≡ is_test counts.now test }
{
    counts.own < test && test < counts.codes
}

/// Whether a loop's number is the count of those that are open around it, eight at most.
fn may_open(depth: usize, number: u8) -> bool
    ensures { result ≡ may_open depth number }
{
    number as usize == depth && depth < 9
}

/// How many values a kind of value has; none where there is no such kind.
pub(crate) fn value_count(counts: &Counts, kind: u8) -> u8
    ensures { result ≡ slice_index_or counts.now.values kind 0 }
{
    match counts.values.get(kind as usize) {
        Some(count) => *count,
        None => 0,
    }
}

/// Whether each argument names something that is there, inside so many loops.
#[tactic(auto, using(crate::proofs::Truths::truth_steps), unfolding(play_meaning::specs::Operands::names_what_is_there))]
pub fn names_what_is_there(counts: &Counts, depth: usize, instruction: Instruction) -> bool
    ensures { result ≡ names_what_is_there counts.now depth instruction }
{
    match instruction {
        Instruction::Var(variable) | Instruction::SetVar(variable) => {
            (variable as u16) < counts.variables
        }
        Instruction::Prop(property) | Instruction::SetProp(property) => {
            (property as u16) < counts.numbers
        }
        Instruction::Flag(property, _) | Instruction::SetFlag(property, _) => {
            (property as u16) < counts.flags
        }
        Instruction::Kind(kind) => (kind as u16) < counts.kinds,
        Instruction::Happens(scene) => (scene as u16) < counts.scenes,
        Instruction::Try(_, action) => (action as u16) < counts.actions,
        Instruction::ValueName(kind) => value_count(counts, kind) > 0,
        Instruction::Valued(kind, value) | Instruction::SetValue(kind, value) => {
            value < value_count(counts, kind)
        }
        Instruction::Loop(number) => (number as usize) < depth,
        Instruction::Count(number, test) | Instruction::Names(_, number, test) => {
            may_open(depth, number) && is_test(counts, test)
        }
        Instruction::Begin(number) => may_open(depth, number),
        Instruction::Next(number, test, _) => {
            number as usize + 1 == depth && is_test(counts, test)
        }
        Instruction::Say(string) | Instruction::EndStory(string) => string < counts.strings,
        Instruction::Follow(book) => book < counts.books,
        _ => true,
    }
}

/// Whether an instruction's byte is one of these.
fn is_from_to(first: u8, last: u8, instruction: Instruction) -> bool
    ensures { result ≡ is_from_to first last instruction }
{
    let byte = opcode(instruction);
    first <= byte && byte <= last
}

/// Whether an instruction may stand in a code for this use.
#[tactic(auto, unfolding(play_meaning::specs::Operands::may_hold))]
pub fn may_hold(role: Use, instruction: Instruction) -> bool
    ensures { result ≡ may_hold role instruction }
{
    match role {
        Use::Test(_) => {
            is_from_to(0x01, 0x20, instruction) || is_from_to(0x3B, 0x3B, instruction)
        }
        Use::Describing => {
            is_from_to(0x01, 0x24, instruction)
                || is_from_to(0x2C, 0x2C, instruction)
                || is_from_to(0x32, 0x33, instruction)
                || is_from_to(0x37, 0x37, instruction)
        }
        Use::Body => is_from_to(0x01, 0x3A, instruction),
    }
}
