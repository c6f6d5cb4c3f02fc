//! What a source is, for those who tell its author of it: its sentences, the story that it is compiled to, its tale, what its names stand for, and its
//! rules, scenes and commands as they are resolved.
#![tactic(auto)]

mod outline;
mod unlisted;

pub use outline::{Meant, Outline, outline_of};
pub use unlisted::Unlisted;
