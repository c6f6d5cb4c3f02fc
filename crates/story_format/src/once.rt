//! Whether numbers stand once.
ghost use Rattle.std.specs.Prelude.{◌≡◌, nat_lt, slice_index_or, true, false, IfOk};
ghost use Rattle.std.specs.List.{list_all, slice_set};
ghost use Rattle.story_format.specs.Once.{are_unmarked};
ghost use Rattle.story_format.specs.Sizes.{are_different};

use std::alloc::{AllocError, Global};

fn is_marked(marks: &[bool], number: u16) -> bool
    ensures { result ≡ slice_index_or marks.now number false }
{
    match marks.get(usize::from(number)) {
        None => false,
        Some(marked) => *marked,
    }
}

/// Marks a number.
fn mark(marks: &mut Vec<bool>, number: u16)
    ensures { marks.new.items ≡ slice_set marks.old.items number true }
{
    if let Some(marked) = marks.get_mut(usize::from(number)) {
        *marked = true;
    }
}

/// Whether none is marked when it comes.
#[tactic(auto, unfolding(crate::specs::Once::are_unmarked))]
fn are_unmarked(marks: &mut Vec<bool>, numbers: &[u16]) -> bool
    ensures { result ≡ are_unmarked marks.old.items numbers.now }
{
    let mut rest = numbers;
    while let [number, after @ ..] = rest {
        if is_marked(marks.as_slice(), *number) {
            return false;
        }
        mark(marks, *number);
        rest = after;
    }
    true
}

/// Whether none of these numbers, each below the count, stands twice.
pub fn are_different(alloc: Global, count: usize, numbers: &[u16]) -> Result<bool, AllocError>
    requires { list_all (λ n. nat_lt n count) numbers.now ≡ true }
    ensures { IfOk result (λ different. different ≡ are_different numbers.now) }
{
    let mut marks = vec![in alloc; false; count]?;
    Ok(are_unmarked(&mut marks, numbers))
}
