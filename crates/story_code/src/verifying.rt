//! Whether a code is sound: two walks over its bytes.
ghost use Rattle.std.specs.Prelude.{◌≡◌, ◌↔◌, ◌&&◌, ◌+◌, ◌<◌, ◌≤◌, ◌^◌, [], IsTrue, Some, length, slice_index};
ghost use Rattle.play_meaning.specs.SoundCodes.{bare};
ghost use Rattle.story_code.specs.Fronts.{code_in};
ghost use Rattle.story_code.specs.Passes.{if_so, is_nil};
ghost use Rattle.story_code.specs.Soundness.{IsSoundCode};
ghost use Rattle.story_code.specs.Walks.{bare_scope, checked, fills, goal_met, meets, scope_of};

use crate::behind::behind;
use crate::decoding::first;
use crate::known::{Known, Loops};
use crate::row::{size, way};
use crate::sizes::Sizes;
use play_meaning::{Instruction, Way};

/// The places of a short code: a small table is enough.
const FEW: usize = 4_096;

/// The places to which ways may lead.
const MANY: usize = 65_536;

/// Stands for a place where no instruction begins, or where operands stand.
const NO_SCOPE: u32 = 0;

/// A number for the innermost loop that is open.
fn scope_of(loops: &Loops) -> u32
    ensures { result ≡ scope_of loops.now }
{
    match loops.innermost() {
        None => 1,
        Some(innermost) => innermost.head as u32 + 2,
    }
}

/// The same where no operand stands.
fn bare_scope(known: &Known) -> u32
    ensures { result ≡ bare_scope known.now }
{
    if known.operands.is_empty() {
        scope_of(&known.loops)
    } else {
        NO_SCOPE
    }
}

/// The number that stands for a place.
fn scope_at(table: &[u32], place: u16) -> u32
    ensures { result ≡ slice_index table.now place }
{
    match table.get(place as usize) {
        None => NO_SCOPE,
        Some(scope) => *scope,
    }
}

/// Whether nothing is left, and no loop is open.
fn is_closed(rest: &[u8], known: &Known) -> bool
    ensures { result ≡ (is_nil rest.now && is_nil known.now.loops) }
{
    rest.is_empty() && known.loops.is_empty()
}

/// Writes each place's number.
fn fill(bytes: &[u8], sizes: &Sizes, table: &mut [u32]) -> bool
    requires short { length bytes.now < 2 ^ 16 }
    requires room { length bytes.now ≤ length table.old }
    ensures { if_so result table.new ≡ fills sizes.now 0 (Some (bare [])) (code_in bytes.now) table.old }
{
    let mut known = Known::new();
    let mut place = 0;
    let mut rest = bytes;
    while let Some(instruction) = first(rest) {
        let (_, after) = rest.split_at(size(instruction));
        table[place] = bare_scope(&known);
        if !behind(&mut known, sizes, place, instruction, first(after)) {
            return false;
        }
        place += size(instruction);
        rest = after;
    }
    is_closed(rest, &known)
}

/// Whether a jump that leads on comes to a place without operands inside the same loop.
#[tactic(auto, unfolding(crate::specs::Walks::goal_met))]
fn is_met(table: &[u32], place: usize, instruction: Instruction, known: &Known) -> bool
    ensures { result ≡ goal_met table.now place instruction known.now.loops }
{
    match way(instruction) {
        Way::Branch(to) => scope_at(table, to) == scope_of(&known.loops),
        Way::Leap(to) => { place >= to as usize || scope_at(table, to) == scope_of(&known.loops) },
        _ => true,
    }
}

/// Whether each jump that leads on is met.
fn meet(bytes: &[u8], sizes: &Sizes, table: &[u32]) -> bool
    requires { length bytes.now < 2 ^ 16 }
    ensures { result ≡ meets sizes.now 0 (Some (bare [])) (code_in bytes.now) table.now }
{
    let mut known = Known::new();
    let mut place = 0;
    let mut rest = bytes;
    while let Some(instruction) = first(rest) {
        let (_, after) = rest.split_at(size(instruction));
        if !is_met(table, place, instruction, &known) {
            return false;
        }
        if !behind(&mut known, sizes, place, instruction, first(after)) {
            return false;
        }
        place += size(instruction);
        rest = after;
    }
    rest.is_empty()
}

/// Whether a code is sound by a table that is empty at first.
fn check(bytes: &[u8], sizes: &Sizes, table: &mut [u32]) -> bool
    requires short { length bytes.now < 2 ^ 16 }
    requires room { length bytes.now ≤ length table.old }
    ensures { result ≡ checked sizes.now bytes.now table.old }
{
    !bytes.is_empty() && fill(bytes, sizes, table) && meet(bytes, sizes, table)
}

/// Whether a code is sound, by a small table.
fn check_short(bytes: &[u8], sizes: &Sizes) -> bool
    requires { length bytes.now ≤ 4096 }
    ensures { IsTrue result ↔ IsSoundCode sizes.now bytes.now }
{
    let mut table = [NO_SCOPE; FEW];
    check(bytes, sizes, &mut table)
}

/// Whether a code is sound, by a table of all places.
fn check_long(bytes: &[u8], sizes: &Sizes) -> bool
    requires { length bytes.now < 2 ^ 16 }
    ensures { IsTrue result ↔ IsSoundCode sizes.now bytes.now }
{
    let mut table = [NO_SCOPE; MANY];
    check(bytes, sizes, &mut table)
}

/// Whether bytes are a sound code: at each place the operands are the same along every way there, each instruction finds
/// its own, each argument names something that is there, and no way leads out. A code has at most 65,535 bytes. Takes time
/// in its bytes and no memory but a table on the stack.
pub fn verify(bytes: &[u8], sizes: &Sizes) -> bool
    ensures { IsTrue result ↔ IsSoundCode sizes.now bytes.now }
{
    if bytes.len() <= FEW {
        check_short(bytes, sizes)
    } else if bytes.len() < MANY {
        check_long(bytes, sizes)
    } else {
        false
    }
}
