//! Why no transcript is tried.
use story_format::LoadFault;

/// What stands in the way of a trial.
#[derive(Clone, Copy, Debug, Drop, PartialEq, Eq)]
pub enum TrialFault {
    /// The bytes are no story.
    Story(LoadFault),
    /// Memory was refused.
    Memory,
    /// The commands have more bytes than are read.
    InputTooLong,
}
