//! Rules as far as the order of their rulebook goes.
use play_meaning::tree::{Listing, Pattern};

/// What the order of a rulebook looks at in a rule.
#[derive(Clone, Copy)]
pub struct Heading<'a> {
    /// The rulebook, by its number.
    pub book: u16,
    pub pattern: &'a Pattern,
    /// Whether the rule asks a condition too.
    pub is_conditional: bool,
    pub listing: Listing,
}
