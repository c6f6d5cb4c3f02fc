//! Whether a story's codes are sound together, and whether its objects are described by descriptions.
ghost use Rattle.std.specs.Prelude.{◌≡◌, ◌↔◌, ℕ, IsTrue, Some, slice_get};
ghost use Rattle.story_code.specs.Fronts.{code_in};
ghost use Rattle.story_code.specs.Runs.{AreDescribedBy, AreSoundTogether, IsBody, IsDescription, IsOneOf};
ghost use Rattle.story_code.specs.Soundness.{Judged};
ghost use Rattle.story_code.specs.Together.{is_inside, is_one_of, is_test_inside, name_their_tests, names_its_test};

use crate::decoding::first;
use crate::fetching::{code_at, nth};
use crate::laws::verified_code_is_sound;
use crate::row::size;
use crate::verified::Verified;
use play_meaning::{Ground, Instruction, Use};
use world_meaning::ObjNo;

/// Whether a code is a test inside so many loops.
fn is_inside(loops: usize, role: Use) -> bool
    ensures { result ≡ is_inside loops role }
{
    match role {
        Use::Test(around) => usize::from(around) == loops,
        Use::Describing | Use::Body => false,
    }
}

/// Whether the code of a number is a test inside so many loops.
fn is_test_inside(codes: &[Verified], loops: usize, number: u16) -> bool
    ensures { result ≡ is_test_inside loops (slice_get codes.now number) }
{
    match code_at(codes, number) {
        Some(code) => is_inside(loops, code.sizes().role),
        None => false,
    }
}

/// Whether a test that an instruction names is one, inside one loop more than are open.
fn names_its_test(codes: &[Verified], instruction: Instruction) -> bool
    ensures { result ≡ names_its_test codes.now instruction }
{
    match instruction {
        Instruction::Count(number, test)
        | Instruction::Names(_, number, test)
        | Instruction::Next(number, test, _) => {
            is_test_inside(codes, usize::from(number) + 1, test)
        }
        _ => true,
    }
}

/// Whether each test that a code names is one.
fn name_their_tests(codes: &[Verified], bytes: &[u8]) -> bool
    ensures { result ≡ name_their_tests codes.now (code_in bytes.now) }
{
    let mut rest = bytes;
    while let Some(instruction) = first(rest) {
        if !names_its_test(codes, instruction) {
            return false;
        }
        let (_, after) = rest.split_at(size(instruction));
        rest = after;
    }
    rest.is_empty()
}

/// Whether a code stands rightly among others, as the one of this number.
fn is_one_of(codes: &[Verified], number: usize, code: &Verified) -> bool
    ensures { result ≡ is_one_of codes.now number code.now }
{
    let counts = code.sizes().counts;
    usize::from(counts.objects) < 65_536
        && usize::from(counts.own) == number
        && usize::from(counts.codes) == codes.len()
        && name_their_tests(codes, code.bytes())
}

/// Whether the code of a number, if there is one, stands rightly among others.
fn stands_rightly(codes: &[Verified], number: usize) -> bool
    ensures { IsTrue result ↔ ((j : Judged) → slice_get codes.now number ≡ Some j → IsOneOf codes.now number j) }
{
    match nth(codes, number) {
        Some(code) => {
            verified_code_is_sound(code);
            is_one_of(codes, number, code)
        }
        None => true,
    }
}

/// Whether codes are sound together: each was judged by its own number, among all of them, and each test that it names is
/// one, inside the loops that are open where it is named. Takes time in their bytes, and no memory.
pub fn are_sound_together(codes: &[Verified]) -> bool
    ensures { IsTrue result ↔ AreSoundTogether codes.now }
{
    for number in 0..codes.len() {
        if !stands_rightly(codes, number) {
            return false;
        }
    }
    true
}

/// Whether the code of a number is a description's.
fn is_description(codes: &[Verified], number: u16) -> bool
    ensures { IsTrue result ↔ IsDescription codes.now number }
{
    match code_at(codes, number) {
        Some(code) => matches!(code.sizes().role, Use::Describing),
        None => false,
    }
}

/// Whether the code of a number is a body.
pub fn is_body(codes: &[Verified], number: u16) -> bool
    ensures { IsTrue result ↔ IsBody codes.now number }
{
    match code_at(codes, number) {
        Some(code) => matches!(code.sizes().role, Use::Body),
        None => false,
    }
}

/// Whether an object is described by a description's code, if it is described.
fn is_described_by<G: Ground>(ground: &G, codes: &[Verified], object: ObjNo) -> bool
    ensures { IsTrue result ↔ ((n : ℕ) → (G.fixed ground.now).descriptions object ≡ Some n → IsDescription codes.now n) }
{
    match ground.description(object) {
        Some(number) => is_description(codes, number),
        None => true,
    }
}

/// Whether what describes an object is a description's code, for each number that an object may have.
pub fn are_described_by<G: Ground>(ground: &G, codes: &[Verified]) -> bool
    ensures { IsTrue result ↔ AreDescribedBy codes.now (G.fixed ground.now) }
{
    for number in 0..65_536_u32 {
        if !is_described_by(ground, codes, ObjNo::new(number as u16)) {
            return false;
        }
    }
    true
}
