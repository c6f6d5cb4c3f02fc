//! What a code is judged by.
use play_meaning::{Counts, Use};

/// What a code is judged by: how many there are of what its arguments name, and what it is for.
#[derive(Clone, Copy)]
pub struct Sizes {
    pub counts: Counts,
    pub role: Use,
}
