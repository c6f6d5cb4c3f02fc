//! Instructions that name a test.
ghost use Rattle.std.specs.Prelude.{◌≡◌};
ghost use Rattle.story_code.specs.Emitting.{named};

use play_meaning::{Instruction, Naming};

/// An instruction that names a test, but for the test's number. Loops go by their numbers.
#[derive(Clone, Copy)]
pub(crate) enum Tested {
    Count(u8),
    Names(Naming, u8),
    /// Its exit is told later.
    Next(u8),
}

/// The instruction that names the test of this number.
pub(crate) fn named(tested: Tested, test: u16) -> Instruction
    ensures { result ≡ named tested test }
{
    match tested {
        Tested::Count(number) => Instruction::Count(number, test),
        Tested::Names(naming, number) => Instruction::Names(naming, number, test),
        Tested::Next(number) => Instruction::Next(number, test, 0),
    }
}
