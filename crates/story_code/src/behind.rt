//! What is known behind an instruction.
ghost use Rattle.std.specs.Prelude.{◌≡◌, ◌+◌, ◌<◌, ◌≤◌, ◌^◌, length};
ghost use Rattle.play_meaning.specs.Instructions.{size_of};
ghost use Rattle.play_meaning.specs.SoundCodes.{bare, loops_around};
ghost use Rattle.play_meaning.specs.declared.way.Way.TheVariants.{Opens};
ghost use Rattle.story_code.specs.Passes.{answers, behind, closed_at, ends_well, if_so, is_allowed, leapt, next_list, opened_at, opened_by, stands_at, way_behind};

use crate::effect::effect;
use crate::known::{Known, Loops};
use crate::named::{may_hold, names_what_is_there};
use crate::row::{size, way};
use crate::sizes::Sizes;
use play_meaning::{Instruction, OpenLoop, Use, Way};

/// Closes the innermost loop, if its next turn stands at the first place and its exit at the second.
fn close(loops: &mut Loops, head: usize, exit: usize) -> bool
    ensures { if_so result (bare loops.new) ≡ closed_at head exit loops.old }
{
    match loops.pop() {
        None => false,
        Some(innermost) => innermost.head as usize == head && innermost.exit as usize == exit,
    }
}

/// Opens a loop whose next turn stands here, if this is a way of one.
fn open_by(loops: &mut Loops, way: Way, here: usize) -> bool
    requires room { length loops.old < 9 }
    requires place { here < 2 ^ 16 }
    ensures { if_so result (bare loops.new) ≡ opened_by way here loops.old }
{
    match way {
        Way::Turns(exit) => {
            loops.push(OpenLoop {
                head: here as u16,
                exit,
            });
            true
        }
        _ => false,
    }
}

/// Opens a loop, if its next turn stands here.
fn open(loops: &mut Loops, here: usize, next: Option<Instruction>) -> bool
    requires room { length loops.old < 9 }
    requires place { here < 2 ^ 16 }
    ensures { if_so result (bare loops.new) ≡ opened_at here loops.old (next_list next) }
{
    match next {
        None => false,
        Some(next) => open_by(loops, way(next), here),
    }
}

/// Whether the innermost loop has its next turn and its exit at these places.
fn is_inside(loops: &Loops, head: usize, exit: u16) -> bool
    ensures { result ≡ stands_at head exit loops.now }
{
    match loops.innermost() {
        None => false,
        Some(innermost) => innermost.head as usize == head && innermost.exit == exit,
    }
}

/// Leaps on, or back to the next turn of the loop that ends here.
fn leap(loops: &mut Loops, to: u16, place: usize, here: usize, next: Option<Instruction>) -> bool
    ensures { if_so result (bare loops.new) ≡ leapt to place here loops.old (next_list next) }
{
    if place < to as usize {
        return true;
    }
    next.is_some() && close(loops, to as usize, here)
}

/// Goes on behind an instruction that has found its operands.
fn go_on(known: &mut Known, way: Way, place: usize, here: usize, next: Option<Instruction>) -> bool
    requires room { way ≡ Opens → length known.old.loops < 9 }
    requires place { here < 2 ^ 16 }
    ensures { if_so result known.new ≡ way_behind way place here known.old.operands known.old.loops (next_list next) }
{
    match way {
        Way::Straight => next.is_some(),
        Way::Branch(to) => { known.operands.is_empty() && place < to as usize && next.is_some() }
        Way::Leap(to) => {
            known.operands.is_empty() && leap(&mut known.loops, to, place, here, next)
        }
        Way::Opens => known.operands.is_empty() && open(&mut known.loops, here, next),
        Way::Turns(exit) => {
            known.operands.is_empty() && is_inside(&known.loops, place, exit) && next.is_some()
        }
        Way::Ends => {
            known.operands.clear();
            true
        }
    }
}

/// How many loops are open around a code.
fn loops_around(role: Use) -> usize
    ensures count { result ≡ loops_around role }
    ensures few { result ≤ 255 }
{
    match role {
        Use::Test(loops) => loops as usize,
        Use::Describing | Use::Body => 0,
    }
}

/// Whether an instruction is a test's answer.
fn answers(role: Use, instruction: Instruction) -> bool
    ensures { result ≡ answers role instruction }
{
    match role {
        Use::Test(_) => match instruction {
            Instruction::Answer => true,
            _ => false,
        },
        Use::Describing | Use::Body => false,
    }
}

/// Whether an instruction may stand here, and what its arguments name is there.
#[tactic(auto, unfolding(crate::specs::Passes::is_allowed))]
fn is_allowed(sizes: &Sizes, loops: &Loops, instruction: Instruction) -> bool
    ensures { result ≡ is_allowed sizes.now loops.now instruction }
{
    may_hold(sizes.role, instruction)
        && names_what_is_there(
            &sizes.counts,
            loops_around(sizes.role) + loops.len(),
            instruction,
        )
}

/// Whether nothing follows an answer.
fn ends_well(role: Use, instruction: Instruction, next: Option<Instruction>) -> bool
    ensures { result ≡ ends_well role instruction (next_list next) }
{
    !answers(role, instruction) || next.is_none()
}

/// Goes on behind an instruction, if it may stand here.
#[tactic(auto, using(crate::proofs::Rooms::allowed_room), unfolding(crate::specs::Passes::behind))]
pub fn behind(
    known: &mut Known,
    sizes: &Sizes,
    place: usize,
    instruction: Instruction,
    next: Option<Instruction>,
) -> bool
    requires { place + size_of instruction < 2 ^ 16 }
    ensures { if_so result known.new ≡ behind sizes.now place instruction (next_list next) known.old }
{
    if !is_allowed(sizes, &known.loops, instruction) || !ends_well(sizes.role, instruction, next) {
        return false;
    }
    if !effect(&mut known.operands, &sizes.counts, instruction) {
        return false;
    }
    go_on(
        known,
        way(instruction),
        place,
        place + size(instruction),
        next,
    )
}
