//! What a source's sentences claim, each by itself: what its names stand for, what words say that something is, and
//! what is stated and demanded of objects, kinds and properties.
#![tactic(auto)]

mod built_in;
mod choosing;
mod claim;
mod claim_laws;
mod claimed;
mod claiming;
mod declaring;
mod demanding;
mod kinds;
mod leading;
mod listings;
mod names;
mod numbering;
mod phrases;
mod plurals;
mod reserved_names;
mod scans;
mod sorts;
mod standings;
mod statements;
mod usuals;
mod wording;

pub use claim::{
    Claim, Demand, Fact, Grant, Having, Listing, Lying, NamedValue, Naming, Placing, Standing,
    Start, Usual, Value,
};
pub use claim_laws::{
    books_twice_are_found, lists_twice_are_found, long_lists_are_found, names_too_many_are_found,
    names_twice_are_found,
};
pub use claimed::Claimed;
pub use kinds::kind_names;
pub use listings::values_listed;
pub use names::{FIRST_OF_AUTHOR, Mention, Names, number_in};
pub use scans::{earlier, lower};
pub use sorts::{Sort, built_in_kinds, list_too_long, names_as, property_names, too_many_as};
pub use standings::{book_twice, list_twice, name_twice};
pub use statements::{
    Numbered, NumberedDoor, NumberedSentence, NumberedSide, NumberedWay, statements_in,
};
