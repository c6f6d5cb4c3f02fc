//! What changes of a world replaced, written one behind the other.
ghost use Rattle.std.specs.Prelude.{◌≡◌, ◌≤◌, ◌∷◌, ◌++◌, [], MatchOption, MatchResult, drop, length};

use play_meaning::SceneNow;
use std::alloc::Global;
use std::marker::Model;
use world_meaning::{ObjNo, Place, TextBytes};

/// What a change replaced.
#[derive(Drop)]
pub(crate) enum Was {
    /// Whether an either-or property was true of an object.
    Flag {
        property: u8,
        object: ObjNo,
        value: bool,
    },
    /// An object's number in a number property.
    Number {
        property: u8,
        object: ObjNo,
        value: i32,
    },
    /// An object's value of a kind of value.
    Valued {
        kind: u8,
        object: ObjNo,
        value: u8,
    },
    /// What a variable was.
    Variable {
        variable: u8,
        value: i32,
    },
    /// Where a scene stood.
    Scene {
        scene: u8,
        now: SceneNow,
    },
    /// Where an object was.
    Placed {
        object: ObjNo,
        place: Option<Place>,
    },
    /// The turn count.
    Turns(u32),
    /// The text with which the story had ended, if it had.
    Ended(Option<TextBytes>),
}

/// What each change replaced, the oldest in front.
#[derive(Drop)]
pub(crate) struct Log {
    entries: Vec<Was>,
}

impl Model for Log {
    ghost use Rattle.std.specs.Prelude.{List};
    ghost use Rattle.world_store.specs.declared.remembering.Was.{Was};

    ghost Value = { List Was };

    ghost view = { λ log. log.entries.items };
}

impl Log {
    /// A log without changes. It takes no memory.
    pub(crate) fn new(alloc: Global) -> Log
        ensures { result ≡ [] }
    {
        Log {
            entries: Vec::new(alloc),
        }
    }

    /// How many changes it tells.
    pub(crate) fn len(&self) -> usize
        ensures { result ≡ length self.now }
    {
        self.entries.len()
    }

    /// Writes what a change replaces. Where memory is refused the log is as it was, and this comes back.
    pub(crate) fn write(&mut self, was: Was) -> Result<(), Was>
        ensures { MatchResult result (λ _. self.new ≡ self.old ++ was ∷ []) (λ back. (back ≡ was) × (self.new ≡ self.old)) }
    {
        match self.entries.push(was) {
            Ok(()) => Ok(()),
            Err(refused) => Err(refused.value),
        }
    }

    /// Takes off what the last change replaced, if there is one.
    pub(crate) fn take_last(&mut self) -> Option<Was>
        ensures { MatchOption result (self.old ≡ []) (λ was. self.old ≡ self.new ++ was ∷ []) }
    {
        self.entries.pop()
    }

    /// Drops so many changes from the front.
    pub(crate) fn drop_front(&mut self, count: usize)
        requires { count ≤ length self.old }
        ensures { self.new ≡ drop count self.old }
    {
        let left = self.entries.len() - count;
        self.entries.rotate_left(count);
        self.entries.truncate(left);
    }
}
