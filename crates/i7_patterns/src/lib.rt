//! What the words of a rule's pattern mean once names are known: `taking an open container in the Hall`.
#![tactic(auto)]

mod action;
mod anything;
mod asked;
mod aspect;
mod aspects;
mod choice;
mod laws;
mod nouns;
mod pattern;
mod place;

pub use asked::Asked;
pub use laws::{one_pattern_is_meant, one_place_is_meant, patterns_ask_what_is, places_are_there};
pub use pattern::{pattern_of, place_of};
