//! What the phrases of rules do, once names are known, as the trees of `play_meaning`.
#![tactic(auto)]

mod adding;
mod around;
mod block;
mod cell;
mod change;
mod draft;
mod moving;
mod phrase;
mod substitution;
mod text;
mod valued;

pub use around::{Around, open_repeats_stand_around};
pub use block::{block_of, one_block_is_opened};
pub use phrase::{change_of, ending_of, one_change_is_made};
pub use text::{one_text_is_meant, text_of};
