//! A source in one call: compiled, loaded, started and played; that who plays it line by line plays the same; and the lines that
//! tell what went wrong.
#![tactic(auto)]

mod faults;
mod laws;
mod source_run;

pub use faults::{ProgramFault, Reported, report};
pub use laws::compiled_stories_are_played_as_meant;
pub use source_run::{Play, SourceRunFault, play_bytes, run_source, run_story};
