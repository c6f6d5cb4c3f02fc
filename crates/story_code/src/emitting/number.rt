//! The codes of numbers.
ghost use Rattle.std.specs.Prelude.{◌≡◌, OnOk};
ghost use Rattle.play_meaning.specs.Meant.{number_meant, term_meant};
ghost use Rattle.play_meaning.specs.Translation.{number_part};
ghost use Rattle.story_code.specs.Emitting.{emitted, operator_code, operators_emitted, terms_emitted};

use crate::emitting::object::{object_code, put, test_code};
use crate::emitting::output::Output;
use crate::emitting::tested::Tested;
use play_meaning::Instruction;
use play_meaning::tree::{Joined, Number, Operator, Term};
use std::alloc::{AllocError, Global};

/// Emits a number, inside so many loops: its terms in order, then what joins them, the last first.
pub(crate) fn emit_number(
    alloc: Global,
    out: &mut Output,
    loops: u8,
    number: &Number,
) -> Result<(), AllocError>
    ensures { OnOk result (out.new ≡ emitted out.old (number_part loops (number_meant number.now))) }
{
    emit_term(alloc, out, loops, &number.first)?;
    let joined = number.rest.as_slice();
    emit_terms(alloc, out, loops, joined)?;
    emit_operators(out, joined)?;
    Ok(())
}

/// Emits a term, inside so many loops.
#[tactic(auto, unfolding(play_meaning::specs::Translation::number_part))]
fn emit_term(alloc: Global, out: &mut Output, loops: u8, term: &Term) -> Result<(), AllocError>
    ensures { OnOk result (out.new ≡ emitted out.old (number_part loops (term_meant term.now))) }
{
    match term {
        Term::Literal(number) => out.push(Instruction::Num(*number)),
        Term::Variable(variable) => out.push(Instruction::Var(*variable)),
        Term::PropertyOf(property, object) => {
            let mut code = object_code(alloc, object)?;
            put(&mut code, Instruction::Prop(*property))?;
            out.append(code.as_slice())
        }
        Term::CountOf(description) => {
            let test = test_code(alloc, loops, description)?;
            out.push_test(Tested::Count(loops), test)
        }
        Term::TurnCount => out.push(Instruction::Turns),
    }
}

/// Emits the terms that are joined, in order.
fn emit_terms(
    alloc: Global,
    out: &mut Output,
    loops: u8,
    joined: &[Joined],
) -> Result<(), AllocError>
    ensures { OnOk result (out.new ≡ terms_emitted loops out.old joined.now) }
{
    let mut rest = joined;
    while let [first, after @ ..] = rest {
        emit_term(alloc, out, loops, &first.term)?;
        rest = after;
    }
    Ok(())
}

/// Emits what joins terms, the last first.
fn emit_operators(out: &mut Output, joined: &[Joined]) -> Result<(), AllocError>
    ensures { OnOk result (out.new ≡ operators_emitted out.old joined.now) }
{
    let mut rest = joined;
    while let Some((last, before)) = rest.split_last() {
        out.push(operator_code(last.operator))?;
        rest = before;
    }
    Ok(())
}

/// The instruction that joins two numbers.
fn operator_code(operator: Operator) -> Instruction
    ensures { result ≡ operator_code operator }
{
    match operator {
        Operator::Plus => Instruction::Add,
        Operator::Minus => Instruction::Sub,
        Operator::Times => Instruction::Mul,
    }
}
