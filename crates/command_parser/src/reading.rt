//! What a command means.
use crate::Question;
use play_meaning::{ActNo, ActionNow};

/// What is said to a line without a command to be read, or to a command that does nothing.
#[derive(Clone, Copy, PartialEq, Eq)]
pub enum Said {
    /// P1: `I beg your pardon?`, to a line without a command, however long it is.
    Empty,
    /// P2: `That line is too long.`, to more than 255 bytes or 32 words.
    TooLong,
    /// P3: `I don't know that verb.`, where no line of the grammar begins so.
    NoVerb,
    /// P4: `You can't see any such thing.`, where a slot is without a candidate.
    NotSeen,
    /// P5: `I didn't understand that sentence.`, where no line that begins so fits.
    NotUnderstood,
    /// P6: `There is nothing to do that to.`, where no thing is meant by `all`.
    NoneOfAll,
}

/// What a command means.
#[derive(Drop)]
pub enum Reading {
    /// This is said, and nothing done.
    Says(Said),
    /// This is asked: `Which do you mean, the x, the y or the z?`, of its candidates.
    Asks(Question),
    /// This is tried.
    Acts(ActionNow),
    /// This is tried with all the things that it may be meant for.
    ActsAll(ActNo),
    /// A turn is to be taken back.
    Undo,
    /// The game is to end.
    Quit,
}
