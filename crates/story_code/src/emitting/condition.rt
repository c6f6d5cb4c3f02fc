//! The codes of conditions.
ghost use Rattle.std.specs.Prelude.{◌≡◌, ◌++◌, [], ◌∷◌, OnOk};
ghost use Rattle.play_meaning.specs.Meant.{adjective_meant, basic_meant, clause_meant, condition_meant, conjunction_meant, description_meant, number_meant, object_meant};
ghost use Rattle.play_meaning.specs.Translation.{adjective_code, condition_part, description_code, held_code, number_part, object_code, one, seq, these};
ghost use Rattle.story_code.specs.Emitting.{emitted, has_code};

use crate::emitting::number::emit_number;
use crate::emitting::object::{object_code, put, put_adjective, put_description, put_object};
use crate::emitting::output::Output;
use play_meaning::Instruction;
use play_meaning::tree::{
    Adjective, Basic, Clause, Condition, Conjunction, Description, Number, Referent,
};
use std::alloc::{AllocError, Global};
use world_meaning::Rel;

/// Emits a condition, inside so many loops.
pub(crate) fn emit_condition(
    alloc: Global,
    out: &mut Output,
    loops: u8,
    condition: &Condition,
) -> Result<(), AllocError>
    ensures { OnOk result (out.new ≡ emitted out.old (condition_part loops (condition_meant condition.now))) }
{
    emit_conjunction(alloc, out, loops, &condition.first)?;
    let mut rest = condition.rest.as_slice();
    while let [next, after @ ..] = rest {
        emit_conjunction(alloc, out, loops, next)?;
        out.push(Instruction::Or)?;
        rest = after;
    }
    Ok(())
}

/// Emits clauses that are joined by `and`.
fn emit_conjunction(
    alloc: Global,
    out: &mut Output,
    loops: u8,
    conjunction: &Conjunction,
) -> Result<(), AllocError>
    ensures { OnOk result (out.new ≡ emitted out.old (condition_part loops (conjunction_meant conjunction.now))) }
{
    emit_clause(alloc, out, loops, &conjunction.first)?;
    let mut rest = conjunction.rest.as_slice();
    while let [next, after @ ..] = rest {
        emit_clause(alloc, out, loops, next)?;
        out.push(Instruction::And)?;
        rest = after;
    }
    Ok(())
}

/// Emits a clause.
#[tactic(auto, using(crate::proofs::Followed::emitted_seq), unfolding(play_meaning::specs::Translation::condition_part))]
fn emit_clause(
    alloc: Global,
    out: &mut Output,
    loops: u8,
    clause: &Clause,
) -> Result<(), AllocError>
    ensures { OnOk result (out.new ≡ emitted out.old (condition_part loops (clause_meant clause.now))) }
{
    emit_basic(alloc, out, loops, &clause.basic)?;
    if clause.denied {
        out.push(Instruction::Not)?;
    }
    Ok(())
}

/// Emits what is asked, inside so many loops.
#[tactic(auto, unfolding(play_meaning::specs::Translation::condition_part))]
fn emit_basic(alloc: Global, out: &mut Output, loops: u8, basic: &Basic) -> Result<(), AllocError>
    ensures { OnOk result (out.new ≡ emitted out.old (condition_part loops (basic_meant basic.now))) }
{
    match basic {
        Basic::IsSo(object, adjective) => emit_is_so(alloc, out, object, *adjective),
        Basic::IsOne(object, description) => emit_is_one(alloc, out, object, description),
        Basic::IsSame(a, b) => emit_two(alloc, out, a, b, Instruction::Eq),
        Basic::IsHeld(object, relation, holder) => {
            emit_two(alloc, out, object, holder, Instruction::Held(*relation))
        }
        Basic::IsHeldByOne(object, relation, description) => {
            emit_held_by_one(alloc, out, object, *relation, description)
        }
        Basic::Has(holder, object) => emit_has(alloc, out, holder, object),
        Basic::Encloses(holder, object) => emit_two(
            alloc,
            out,
            holder,
            object,
            Instruction::Encloses,
        ),
        Basic::HasDescription(object) => emit_of(alloc, out, object, Instruction::HasDescription),
        Basic::Equals(a, b) => emit_compared(alloc, out, loops, a, b, Instruction::Eq),
        Basic::IsLess(a, b) => emit_compared(alloc, out, loops, a, b, Instruction::Less),
        Basic::IsAtMost(a, b) => emit_compared(alloc, out, loops, a, b, Instruction::AtMost),
        Basic::Happens(scene) => out.push(Instruction::Happens(*scene)),
        Basic::InDarkness => out.push(Instruction::Dark),
    }
}

/// Emits an object, and what is done with it.
pub(crate) fn emit_of(
    alloc: Global,
    out: &mut Output,
    object: &Referent,
    instruction: Instruction,
) -> Result<(), AllocError>
    ensures { OnOk result (out.new ≡ emitted out.old (these (object_code (object_meant object.now) ++ instruction ∷ []))) }
{
    let mut code = object_code(alloc, object)?;
    put(&mut code, instruction)?;
    out.append(code.as_slice())
}

/// Emits two objects, and what is done with them.
pub(crate) fn emit_two(
    alloc: Global,
    out: &mut Output,
    a: &Referent,
    b: &Referent,
    instruction: Instruction,
) -> Result<(), AllocError>
    ensures { OnOk result (out.new ≡ emitted out.old (these (object_code (object_meant a.now) ++ object_code (object_meant b.now) ++ instruction ∷ []))) }
{
    let mut code = object_code(alloc, a)?;
    put_object(&mut code, b)?;
    put(&mut code, instruction)?;
    out.append(code.as_slice())
}

/// Emits whether an object is so.
fn emit_is_so(
    alloc: Global,
    out: &mut Output,
    object: &Referent,
    adjective: Adjective,
) -> Result<(), AllocError>
    ensures { OnOk result (out.new ≡ emitted out.old (these (adjective_code (object_code (object_meant object.now)) (adjective_meant adjective)))) }
{
    let object = object_code(alloc, object)?;
    let mut code = Vec::new(alloc);
    put_adjective(&mut code, object.as_slice(), adjective)?;
    out.append(code.as_slice())
}

/// Emits whether an object is one of those that a description means.
fn emit_is_one(
    alloc: Global,
    out: &mut Output,
    object: &Referent,
    description: &Description,
) -> Result<(), AllocError>
    ensures { OnOk result (out.new ≡ emitted out.old (these (description_code (object_code (object_meant object.now)) (description_meant description.now)))) }
{
    let object = object_code(alloc, object)?;
    let mut code = Vec::new(alloc);
    put_description(&mut code, object.as_slice(), description)?;
    out.append(code.as_slice())
}

/// Emits whether what holds an object so is one of those that a description means.
fn emit_held_by_one(
    alloc: Global,
    out: &mut Output,
    object: &Referent,
    relation: Rel,
    description: &Description,
) -> Result<(), AllocError>
    ensures { OnOk result (out.new ≡ emitted out.old (these (description_code (object_code (object_meant object.now) ++ Instruction.Holder relation ∷ []) (description_meant description.now)))) }
{
    let mut holder = object_code(alloc, object)?;
    put(&mut holder, Instruction::Holder(relation))?;
    let mut code = Vec::new(alloc);
    put_description(&mut code, holder.as_slice(), description)?;
    out.append(code.as_slice())
}

/// Emits whether an object carries or wears another.
fn emit_has(
    alloc: Global,
    out: &mut Output,
    holder: &Referent,
    object: &Referent,
) -> Result<(), AllocError>
    ensures { OnOk result (out.new ≡ emitted out.old (these (has_code (object_code (object_meant holder.now)) (object_code (object_meant object.now))))) }
{
    let mut code = Vec::new(alloc);
    put_held(&mut code, object, Rel::Carried, holder)?;
    put_held(&mut code, object, Rel::Worn, holder)?;
    put(&mut code, Instruction::Or)?;
    out.append(code.as_slice())
}

/// Adds a test whether an object is held so by another.
fn put_held(
    code: &mut Vec<Instruction>,
    object: &Referent,
    relation: Rel,
    holder: &Referent,
) -> Result<(), AllocError>
    ensures { OnOk result (code.new.items ≡ code.old.items ++ held_code (object_code (object_meant object.now)) relation (object_code (object_meant holder.now))) }
{
    put_object(code, object)?;
    put_object(code, holder)?;
    put(code, Instruction::Held(relation))
}

/// Emits two numbers, and how they are compared.
#[tactic(auto, using(crate::proofs::Followed::emitted_seq))]
fn emit_compared(
    alloc: Global,
    out: &mut Output,
    loops: u8,
    a: &Number,
    b: &Number,
    instruction: Instruction,
) -> Result<(), AllocError>
    ensures { OnOk result (out.new ≡ emitted out.old (seq (number_part loops (number_meant a.now)) (seq (number_part loops (number_meant b.now)) (one instruction)))) }
{
    emit_number(alloc, out, loops, a)?;
    emit_number(alloc, out, loops, b)?;
    out.push(instruction)
}
