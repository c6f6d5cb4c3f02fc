//! Scenes begin and end: a pass over a story's scenes, on a stage.
#![tactic(auto)]

mod passing;

pub use passing::pass;
