//! The texts that the player prints of itself.

pub const EMPTY: &[u8] = b"I beg your pardon?\n";

pub const TOO_LONG: &[u8] = b"That line is too long.\n";

pub const NO_VERB: &[u8] = b"I don't know that verb.\n";

pub const NOT_SEEN: &[u8] = b"You can't see any such thing.\n";

pub const NOT_UNDERSTOOD: &[u8] = b"I didn't understand that sentence.\n";

pub const NONE_OF_ALL: &[u8] = b"There is nothing to do that to.\n";

pub const UNDONE: &[u8] = b"Previous turn undone.\n";

pub const NOTHING_TO_UNDO: &[u8] = b"You can't undo any further.\n";

pub const OUT_OF_MEMORY: &[u8] = b"[The turn was abandoned: out of memory.]\n";

pub const OUT_OF_RANGE: &[u8] = b"[The turn was abandoned: number out of range.]\n";

pub const TOO_DEEP: &[u8] = b"[The turn was abandoned: nested too deep.]\n";

pub const TOO_MUCH_WORK: &[u8] = b"[The turn was abandoned: too much work.]\n";
