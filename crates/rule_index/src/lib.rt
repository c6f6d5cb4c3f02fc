//! An index of a story's rules: for an action, a noun and a room the rules of a rulebook that may be about them, so that a walk
//! over a book passes the others over. It answers no question otherwise, and sooner.
#![tactic(auto)]

mod admitting;
mod bucket;
mod classes;
mod index;
mod walks;

pub use bucket::Bucket;
pub use index::Index;
