//! The codes of phrases and bodies.
ghost use Rattle.std.specs.Prelude.{◌≡◌, ◌+◌, ◌≤◌, IfOk, OnOk, is_some, true};
ghost use Rattle.object_words.specs.Mentions.{number_in};
ghost use Rattle.play_meaning.specs.Meant.{body_meant, number_meant, object_meant, phrase_meant, simple_meant};
ghost use Rattle.play_meaning.specs.Translation.{body_part, leave_part, number_part, object_code, one, phrase_part, seq, these};
ghost use Rattle.story_code.specs.Choosing.{branch_emitted, branches_emitted, choosing, landed};
ghost use Rattle.story_code.specs.Emitting.{emitted, place_in};

use crate::emitting::condition::{emit_condition, emit_of, emit_two};
use crate::emitting::number::emit_number;
use crate::emitting::object::{object_code, test_code};
use crate::emitting::output::Output;
use crate::emitting::tested::Tested;
use crate::emitting::text::emit_text;
use object_words::Strings;
use play_meaning::tree::{Branch, Number, Phrase, Referent, Simple};
use play_meaning::{Flow, Instruction, Outcome};
use std::alloc::{AllocError, Global};

/// The jumps of a branch, by their indices: where its condition doesn't hold, past its phrases to the next place, and from
/// the last of its phrases past all that is left of the choice.
#[derive(Clone, Copy)]
pub(crate) struct Leap {
    past: usize,
    next: u16,
    last: usize,
}

/// Emits phrases, in order, inside so many loops.
#[cycle(bodies)]
pub(crate) fn emit_body(
    alloc: Global,
    out: &mut Output,
    strings: &Strings,
    loops: u8,
    body: &[Phrase],
) -> Result<(), AllocError>
    requires { loops ≤ 9 }
    ensures { OnOk result (out.new ≡ emitted out.old (body_part (number_in strings.now) loops (body_meant body.now))) }
{
    for at in 0..body.len() {
        emit_phrase(alloc, out, strings, loops, &body[at])?;
    }
    out.fits();
    Ok(())
}

/// Emits a phrase. Where bytes can't say what was emitted so far, nothing more is looked at.
#[cycle(bodies)]
fn emit_phrase(
    alloc: Global,
    out: &mut Output,
    strings: &Strings,
    loops: u8,
    phrase: &Phrase,
) -> Result<(), AllocError>
    requires { loops ≤ 9 }
    ensures { OnOk result (out.new ≡ emitted out.old (phrase_part (number_in strings.now) loops (phrase_meant phrase.now))) }
{
    if !out.fits() {
        return Ok(());
    }
    match phrase {
        Phrase::Plain(simple) => emit_simple(alloc, out, strings, loops, simple)?,
        Phrase::Instead(simple) => {
            emit_simple(alloc, out, strings, loops, simple)?;
            out.push(Instruction::Failure)?;
        }
        Phrase::If(first, branches, others) => {
            let mut leaps = Vec::new(alloc);
            emit_branch(alloc, out, strings, loops, first, &mut leaps)?;
            emit_branches(alloc, out, strings, loops, branches.as_slice(), &mut leaps)?;
            emit_body(alloc, out, strings, loops, others.as_slice())?;
            land(out, leaps.as_slice());
        }
        Phrase::Repeat(description, phrases) => {
            if !emit_begin(out, loops)? {
                return Ok(());
            }
            let head = out.place();
            let turn = out.count();
            let test = test_code(alloc, loops, description)?;
            out.push_test(Tested::Next(loops), test)?;
            emit_body(alloc, out, strings, loops + 1, phrases.as_slice())?;
            out.push(Instruction::Jump(head))?;
            let exit = out.place();
            out.aim(turn, exit);
        }
    }
    Ok(())
}

/// Emits branches, in order.
#[cycle(bodies)]
fn emit_branches(
    alloc: Global,
    out: &mut Output,
    strings: &Strings,
    loops: u8,
    branches: &[Branch],
    leaps: &mut Vec<Leap>,
) -> Result<(), AllocError>
    requires { loops ≤ 9 }
    ensures { OnOk result (choosing out.new leaps.new.items ≡ branches_emitted (number_in strings.now) loops (choosing out.old leaps.old.items) branches.now) }
{
    for at in 0..branches.len() {
        emit_branch(alloc, out, strings, loops, &branches[at], leaps)?;
    }
    Ok(())
}

/// Emits a branch: its condition, and what is done where that holds.
#[cycle(bodies)]
fn emit_branch(
    alloc: Global,
    out: &mut Output,
    strings: &Strings,
    loops: u8,
    branch: &Branch,
    leaps: &mut Vec<Leap>,
) -> Result<(), AllocError>
    requires { loops ≤ 9 }
    ensures { OnOk result (choosing out.new leaps.new.items ≡ branch_emitted (number_in strings.now) loops (choosing out.old leaps.old.items) branch.now) }
{
    emit_condition(alloc, out, loops, &branch.condition)?;
    let past = out.count();
    out.push(Instruction::IfZero(0))?;
    emit_body(alloc, out, strings, loops, branch.phrases.as_slice())?;
    let last = out.count();
    out.push(Instruction::Jump(0))?;
    let next = out.place();
    leaps.push(Leap { past, next, last })?;
    Ok(())
}

/// Aims the jumps of a choice that ends here.
fn land(out: &mut Output, leaps: &[Leap])
    ensures { out.new ≡ landed (place_in out.old.kept) leaps.now out.old }
{
    let end = out.place();
    let mut rest = leaps;
    while let Some((leap, front)) = rest.split_last() {
        out.aim(leap.past, leap.next);
        out.aim(leap.last, end);
        rest = front;
    }
}

/// Emits the beginning of a loop, and tells whether bytes can say it: nine loops are open at most.
fn emit_begin(out: &mut Output, loops: u8) -> Result<bool, AllocError>
    ensures begun { OnOk result (out.new ≡ emitted out.old (one (Instruction.Begin loops))) }
    ensures kept { IfOk result (λ kept. kept ≡ is_some out.new.kept) }
    ensures few { IfOk result (λ kept. kept ≡ true → loops + 1 ≤ 9) }
{
    out.push(Instruction::Begin(loops))?;
    Ok(out.fits())
}

/// Emits a phrase without phrases of its own.
#[tactic(auto, unfolding(play_meaning::specs::Translation::phrase_part))]
fn emit_simple(
    alloc: Global,
    out: &mut Output,
    strings: &Strings,
    loops: u8,
    simple: &Simple,
) -> Result<(), AllocError>
    ensures { OnOk result (out.new ≡ emitted out.old (phrase_part (number_in strings.now) loops (simple_meant simple.now))) }
{
    match simple {
        Simple::Say(text) => emit_text(alloc, out, strings, loops, text),
        Simple::NowIs(object, property, value) => {
            emit_of(alloc, out, object, Instruction::SetFlag(*property, *value))
        }
        Simple::NowHeld(object, relation, holder) => {
            emit_two(alloc, out, object, holder, Instruction::PutAt(*relation))
        }
        Simple::NowNowhere(object) => emit_of(alloc, out, object, Instruction::Away),
        Simple::Move(object, holder) => emit_two(alloc, out, object, holder, Instruction::Move),
        Simple::NowNumber(property, object, number) => {
            emit_now_number(alloc, out, loops, *property, object, number)
        }
        Simple::NowVariable(variable, number) => {
            emit_now_variable(alloc, out, loops, *variable, number)
        }
        Simple::NowValued(object, kind, value) => {
            emit_of(alloc, out, object, Instruction::SetValue(*kind, *value))
        }
        Simple::Try(silent, action, noun, second) => {
            emit_two(
                alloc,
                out,
                noun,
                second,
                Instruction::Try(*silent, action.get()),
            )
        }
        Simple::Follow(book) => out.push(Instruction::Follow(*book)),
        Simple::Leave(flow) => emit_leave(out, *flow),
        Simple::EndStory(text) => {
            out.push(Instruction::EndStory(strings.number_of(text.as_slice())))
        }
    }
}

/// Emits how a body leaves off; nothing where it goes on.
fn emit_leave(out: &mut Output, flow: Flow) -> Result<(), AllocError>
    ensures { OnOk result (out.new ≡ emitted out.old (leave_part flow)) }
{
    match flow {
        Flow::GoesOn => {
            out.fits();
            Ok(())
        }
        Flow::NoDecision => out.push(Instruction::NoDecision),
        Flow::Decides(Outcome::Success) => out.push(Instruction::Success),
        Flow::Decides(Outcome::Failure) => out.push(Instruction::Failure),
    }
}

/// Emits a change of an object's number.
#[tactic(auto, using(crate::proofs::Followed::emitted_seq))]
fn emit_now_number(
    alloc: Global,
    out: &mut Output,
    loops: u8,
    property: u8,
    object: &Referent,
    number: &Number,
) -> Result<(), AllocError>
    ensures { OnOk result (out.new ≡ emitted out.old (seq (seq (these (object_code (object_meant object.now))) (number_part loops (number_meant number.now))) (one (Instruction.SetProp property)))) }
{
    let code = object_code(alloc, object)?;
    out.append(code.as_slice())?;
    emit_number(alloc, out, loops, number)?;
    out.push(Instruction::SetProp(property))
}

/// Emits a change of a variable.
#[tactic(auto, using(crate::proofs::Followed::emitted_seq))]
fn emit_now_variable(
    alloc: Global,
    out: &mut Output,
    loops: u8,
    variable: u8,
    number: &Number,
) -> Result<(), AllocError>
    ensures { OnOk result (out.new ≡ emitted out.old (seq (number_part loops (number_meant number.now)) (one (Instruction.SetVar variable)))) }
{
    emit_number(alloc, out, loops, number)?;
    out.push(Instruction::SetVar(variable))
}
