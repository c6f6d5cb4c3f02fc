//! The order of rulebooks: which of a story's rules a rulebook holds, and which of them is asked first
//! (*Writing with Inform*, 19.16).
#![tactic(auto)]

mod books;
mod entry;
mod heading;
mod key;
mod laws;
mod listing;
mod listing_laws;
mod specificity;
mod standard_rules;

pub use books::{Books, order};
pub use heading::Heading;
pub use laws::{one_order, order_of_handing_is_nothing};
pub use listing::{Front, ListingSentence, listings};
pub use listing_laws::{headings_are_of_rules, rules_are_listed_apart};
pub use specificity::{aspects_of, grade_of};
pub use standard_rules::{STANDARD_RULES, standard_book};
