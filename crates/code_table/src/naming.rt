//! The tests that codes name, each by the next number.
ghost use Rattle.std.specs.Prelude.{◌≡◌, IfOk};
ghost use Rattle.story_code.specs.Fronts.{code_in};
ghost use Rattle.story_code.specs.Passes.{if_so};
ghost use Rattle.story_code.specs.Runs.{test_named};
ghost use Rattle.code_table.specs.Growing.{with_code, with_test};

use play_meaning::{Instruction, Use};
use std::alloc::AllocError;
use story_code::{first, size};

/// The loop that a test of an instruction is inside, innermost, and the test.
fn test_named(instruction: Instruction) -> Option<(u8, u16)>
    ensures { result ≡ test_named instruction }
{
    match instruction {
        Instruction::Count(number, test)
        | Instruction::Names(_, number, test)
        | Instruction::Next(number, test, _) => Some((number, test)),
        _ => None,
    }
}

/// Adds the use of the test that an instruction names, if it is the next.
fn add_test(uses: &mut Vec<Use>, instruction: Instruction) -> Result<bool, AllocError>
    ensures { IfOk result (λ is. if_so is uses.new.items ≡ with_test uses.old.items instruction) }
{
    let Some((number, test)) = test_named(instruction) else {
        return Ok(true);
    };
    if usize::from(test) != uses.len() {
        return Ok(false);
    }
    let Some(loops) = number.checked_add(1) else {
        return Ok(false);
    };
    uses.push(Use::Test(loops))?;
    Ok(true)
}

/// Adds the uses of the tests that a code names, if each is the next.
pub fn add_tests(uses: &mut Vec<Use>, code: &[u8]) -> Result<bool, AllocError>
    ensures { IfOk result (λ are. if_so are uses.new.items ≡ with_code uses.old.items (code_in code.now)) }
{
    let mut rest = code;
    while let Some(instruction) = first(rest) {
        if !add_test(uses, instruction)? {
            return Ok(false);
        }
        let (_, after) = rest.split_at(size(instruction));
        rest = after;
    }
    Ok(rest.is_empty())
}
