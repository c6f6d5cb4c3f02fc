//! Golden transcripts: a transcript that was kept is script and expectation at once. Which of its lines are commands is found by
//! playing, so that no text can forge one; what the story says to these is compared with what was kept.
#![tactic(auto)]

mod exchange;
mod fault;
mod kept;
mod trial;

pub use exchange::Exchange;
pub use fault::TrialFault;
pub use kept::Kept;
pub use trial::{Trial, transcript_of, tried};
