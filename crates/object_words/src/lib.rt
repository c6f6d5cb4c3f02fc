//! The words that a command may name an object by, and strings in the order in which they are first
//! mentioned.
#![tactic(auto)]

mod strings;
mod words;

pub use strings::Strings;
pub use words::words_for;
