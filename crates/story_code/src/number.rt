//! Operands as truths and as objects, and numbers in their range.
ghost use Rattle.std.specs.Prelude.{◌≡◌, true};
ghost use Rattle.play_meaning.specs.Machines.{is_true, object_at, object_number, truth_number};
ghost use Rattle.play_meaning.specs.Stands.{is_object_number};
ghost use Rattle.play_meaning.specs.Values.{in_range};

use world_meaning::{Abandon, ObjNo};

/// Whether a number stands for true.
pub fn is_true(number: i32) -> bool
    ensures { result ≡ is_true number }
{
    number != 0
}

/// The number of a truth.
pub fn truth_number(truth: bool) -> i32
    ensures { result ≡ truth_number truth }
{
    if truth { 1 } else { 0 }
}

/// The number of an object, or of nothing.
pub fn object_number(object: Option<ObjNo>) -> i32
    ensures number { result ≡ object_number object }
    ensures small { is_object_number result ≡ true }
{
    match object {
        Some(object) => i32::from(object.get()),
        None => -1,
    }
}

/// The object of a number, if it isn't that of nothing.
pub fn object_at(number: i32) -> Option<ObjNo>
    requires { is_object_number number ≡ true }
    ensures { result ≡ object_at number }
{
    if number < 0 {
        None
    } else {
        Some(ObjNo::new(number as u16))
    }
}

/// A number, if it is in the range of numbers.
pub fn in_range(number: i64) -> Result<i32, Abandon>
    ensures { result ≡ in_range number }
{
    if -2_147_483_648 <= number && number <= 2_147_483_647 {
        Ok(number as i32)
    } else {
        Err(Abandon::NumberOutOfRange)
    }
}
