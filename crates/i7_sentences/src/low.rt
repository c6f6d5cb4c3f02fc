//! The lower of two lines.
ghost use Rattle.std.specs.Prelude.{◌≡◌};
ghost use Rattle.i7_sentences.specs.Lowest.{lower_of};

/// The lower of two lines, if there are both.
pub fn lower_of(first: Option<u32>, second: Option<u32>) -> Option<u32>
    ensures { result ≡ lower_of first second }
{
    match first {
        None => second,
        Some(one) => match second {
            None => Some(one),
            Some(other) => if other < one { Some(other) } else { Some(one) },
        },
    }
}
