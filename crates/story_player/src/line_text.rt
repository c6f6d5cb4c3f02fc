//! What is said to a line: the texts of its commands, one behind the other. Texts of the player's own take no memory: there is
//! room for as many as a line has commands.
ghost use Rattle.smallvec.specs.SmallVec.{HasRoomFor};
ghost use Rattle.std.specs.Prelude.{◌≡◌, ◌≤◌, ◌<◌, ◌+◌, [], IfErr, IsOk, OnErr, OnOk, length};
ghost use Rattle.play_meaning.specs.Sessions.{parted_by_break};
ghost use Rattle.story_player.specs.LineTexts.{longest_fixed, most_commands};
ghost use Rattle.world_meaning.specs.declared.session.Abandon.TheVariants.{Memory};

use smallvec::SmallVec;
use std::alloc::{AllocError, Global};
use std::marker::Model;
use world_meaning::Abandon;

/// The most commands of a line: one of a byte, and a full stop between two.
pub(crate) const MOST_COMMANDS: u8 = 128;

/// The most bytes of a text of the player's own, with the line break in front of it.
const FIXED_ROOM: usize = 49;

/// Room for the texts of the player's own that a line may be answered by.
const LINE_ROOM: usize = 6_272;

/// What is said so far, with room for so many more texts of the player's own.
#[derive(Drop)]
pub struct LineText {
    text: SmallVec<u8, LINE_ROOM>,
    left: u8,
}

/// Adds bytes, behind a line break where something is said on both sides of it. Where there is no memory nothing changes.
fn push_parted(text: &mut SmallVec<u8, LINE_ROOM>, more: &[u8]) -> Result<(), AllocError>
    ensures said { OnOk result (text.new.items ≡ parted_by_break text.old.items more.now) }
    ensures succeeds { HasRoomFor text.old (length more.now + 1) → IsOk result }
    ensures same { OnErr result (text.new ≡ text.old) }
    ensures capacity { text.old.capacity ≤ text.new.capacity }
{
    text.reserve(more.len() + 1)?;
    if !text.is_empty() && !more.is_empty() {
        text.push_reserved(b'\n');
    }
    text.extend_from_slice(more)
}

impl Model for LineText {
    ghost use Rattle.story_player.specs.LineTexts.{LineText as Told, most_commands, room_for};
    ghost use Rattle.std.specs.Prelude.{◌≤◌, ◌+◌, length};

    ghost Value = { Told };

    ghost view = { λ line. record { said = line.text.items; left = line.left } };

    ghost invariant = { λ line. (length line.text.items + room_for line.left ≤ line.text.capacity) × (room_for most_commands ≤ line.text.capacity) };
}

impl LineText {
    /// Nothing said.
    pub(crate) fn new(alloc: Global) -> LineText
        ensures { result ≡ record { said = []; left = most_commands } }
    {
        LineText {
            text: SmallVec::new(alloc),
            left: MOST_COMMANDS,
        }
    }

    /// Nothing said any more; the room stays.
    pub(crate) fn clear(&mut self)
        ensures { self.new ≡ record { said = []; left = most_commands } }
    {
        self.text.clear();
        self.left = MOST_COMMANDS;
    }

    /// Adds a text of the player's own. Takes no memory.
    pub(crate) fn add_fixed(&mut self, text: &'static [u8])
        requires room { 0 < self.old.left }
        requires short { length text.now ≤ longest_fixed }
        ensures said { self.new.said ≡ parted_by_break self.old.said text.now }
        ensures left { self.new.left + 1 ≡ self.old.left }
    {
        self.left -= 1;
        let _ = push_parted(&mut self.text, text);
    }

    /// Adds a text that was made for a command, once there is room for it and for the player's own texts behind it.
    ///
    /// # Errors
    /// Want of memory alone; nothing is added then.
    pub(crate) fn add_made(&mut self, text: &[u8]) -> Result<(), Abandon>
        requires room { 0 < self.old.left }
        ensures said { OnOk result (self.new.said ≡ parted_by_break self.old.said text.now) }
        ensures left { OnOk result (self.new.left + 1 ≡ self.old.left) }
        ensures refused { IfErr result (λ reason. reason ≡ Memory) }
        ensures same { OnErr result (self.new ≡ self.old) }
    {
        let others = FIXED_ROOM * usize::from(self.left - 1);
        match self.text.reserve(others + 1 + text.len()) {
            Ok(()) => {
                self.left -= 1;
                let _ = push_parted(&mut self.text, text);
                Ok(())
            }
            Err(_) => Err(Abandon::Memory),
        }
    }

    /// What is said.
    pub(crate) fn as_slice(&self) -> &[u8]
        ensures { result.now ≡ self.now.said }
    {
        self.text.as_slice()
    }
}
