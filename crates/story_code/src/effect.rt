//! What an instruction does to the sorts of the operands.
ghost use Rattle.std.specs.Prelude.{◌≡◌};
ghost use Rattle.play_meaning.specs.Operands.{are_alike, behind_eq, below, gives, is_object, operands_behind, serves, takes, taken_from, with_given};
ghost use Rattle.std.specs.Prelude.{Some};
ghost use Rattle.story_code.specs.Passes.{if_so};

use crate::known::Sorts;
use crate::row;
use play_meaning::{Counts, Instruction, Sort};

/// Whether an operand serves as one of a sort.
fn serves(sort: Sort, wanted: Sort) -> bool
    ensures { result ≡ serves sort wanted }
{
    match sort {
        Sort::NumberOrObject => wanted != Sort::Truth,
        _ => sort == wanted,
    }
}

/// Whether two operands are of one sort: two numbers, two truths, two objects.
fn are_alike(a: Sort, b: Sort) -> bool
    ensures { result ≡ are_alike a b }
{
    serves(a, Sort::Number) && serves(b, Sort::Number)
        || serves(a, Sort::Truth) && serves(b, Sort::Truth)
        || serves(a, Sort::Object) && serves(b, Sort::Object)
}

/// Whether a number is an object's, or nothing's.
fn is_object(counts: &Counts, number: i32) -> bool
    ensures { result ≡ is_object counts.now number }
{
    -1 <= number && number < counts.objects as i32
}

/// What an instruction gives.
fn gives(counts: &Counts, instruction: Instruction) -> Option<Sort>
    ensures { result ≡ gives counts.now instruction }
{
    match instruction {
        Instruction::Num(number) => {
            if is_object(counts, number) {
                Some(Sort::NumberOrObject)
            } else {
                Some(Sort::Number)
            }
        }
        _ => row::gives(instruction),
    }
}

/// Takes the operands that are wanted, if they stand there.
fn take(operands: &mut Sorts, wanted: &[Sort]) -> bool
    ensures { if_so result operands.new ≡ below wanted.now operands.old }
{
    let mut rest = wanted;
    while let [first, after @ ..] = rest {
        let Some(sort) = operands.pop() else {
            return false;
        };
        if !serves(sort, *first) {
            return false;
        }
        rest = after;
    }
    true
}

/// Takes two operands of one sort, if they stand there.
fn take_alike(operands: &mut Sorts) -> bool
    ensures { if_so result operands.new ≡ behind_eq operands.old }
{
    let Some(b) = operands.pop() else {
        return false;
    };
    let Some(a) = operands.pop() else {
        return false;
    };
    are_alike(a, b)
}

/// Takes what an instruction takes, if it stands there.
fn take_from(operands: &mut Sorts, instruction: Instruction) -> bool
    ensures { if_so result operands.new ≡ taken_from instruction operands.old }
{
    match instruction {
        Instruction::Eq => take_alike(operands),
        _ => take(operands, row::takes(instruction)),
    }
}

/// Gives an operand, if there is room.
fn give(operands: &mut Sorts, given: Option<Sort>) -> bool
    ensures { if_so result operands.new ≡ with_given given (Some operands.old) }
{
    match given {
        None => true,
        Some(sort) => operands.push(sort),
    }
}

/// Takes what an instruction takes and gives what it gives, if what it takes stands there and there is room.
#[tactic(auto, unfolding(play_meaning::specs::Operands::operands_behind))]
pub fn effect(operands: &mut Sorts, counts: &Counts, instruction: Instruction) -> bool
    ensures { if_so result operands.new ≡ operands_behind counts.now instruction operands.old }
{
    take_from(operands, instruction) && give(operands, gives(counts, instruction))
}
