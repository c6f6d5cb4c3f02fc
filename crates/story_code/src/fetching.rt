//! The instruction at which a run stands.
ghost use Rattle.std.specs.Prelude.{◌≡◌, Some, MatchOption, slice_get};
ghost use Rattle.std.specs.Option.{option_map};
ghost use Rattle.play_meaning.specs.Instructions.{at_place};
ghost use Rattle.play_meaning.specs.declared.instruction.Instruction.{Instruction};
ghost use Rattle.story_code.specs.Runs.{AreSoundTogether, IsFetched, IsStanding, code_told};

use crate::decoding::first;
use crate::state::RunState;
use crate::verified::Verified;
use play_meaning::Instruction;

/// The instruction at a place of a code where one stands.
#[inline(always)]
fn instruction_at(code: &Verified, place: usize) -> Option<Instruction>
    ensures { (i : Instruction) → at_place (code_told code.now) place ≡ Some i → result ≡ Some i }
{
    let bytes = code.bytes.as_slice();
    if bytes.len() < place {
        return None;
    }
    let (_, rest) = bytes.split_at(place);
    first(rest)
}

/// The code at an index.
pub fn nth(codes: &[Verified], index: usize) -> Option<&Verified>
    ensures { option_map (λ code. code.now) result ≡ slice_get codes.now index }
{
    codes.get(index)
}

/// The code of a number.
pub fn code_at(codes: &[Verified], number: u16) -> Option<&Verified>
    ensures { option_map (λ code. code.now) result ≡ slice_get codes.now number }
{
    nth(codes, usize::from(number))
}

/// The instruction at which a run stands.
#[inline(always)]
pub fn fetch(codes: &[Verified], state: &RunState) -> Option<Instruction>
    requires sound { AreSoundTogether codes.now }
    requires stands { IsStanding codes.now state.now }
    ensures { MatchOption result ⊥ (IsFetched codes.now state.now) }
{
    let code = code_at(codes, state.code)?;
    let _ = &code.bytes;
    if state.loops.len() > 9 {
        return None;
    }
    instruction_at(code, state.place)
}
