//! The rulebooks of a source, as Inform's Index lists them: each rule in its order, with its name, the line of its sentence, what its head asks and what
//! puts it there: a sentence that lists it, or how specific it is; all of them, or those that an action, its noun and a room admit.
#![tactic(auto)]

mod admitted;
mod book_names;
mod head;
mod laws;
mod listing;
mod placing;
mod reason;
mod rulebooks;
mod sought;

pub use admitted::{Sought, SoughtObject, rules_sought};
pub use laws::what_is_told_whole_is_what_the_index_asks;
pub use listing::{rulebooks_told, rules_about};
pub use placing::{Placed, Placing};
pub use reason::{Reason, Specificity, decided_by};
pub use rulebooks::{MOST_BOOKS, RuleTold, Rulebooks};
pub use sought::{Unsought, Words};
