//! What the words of a source's rules may name.
ghost use Rattle.std.specs.Prelude.{◌+◌, ◌*◌, ◌≤◌, length};

use i7_actions::Action;
use i7_conditions::Names;
use world_meaning::{KindNo, Object, TextBytes};

/// What phrases may name, whatever repeats stand around them.
#[derive(Clone, Copy)]
pub struct Known<'a> {
    pub names: &'a Names,
    /// The actions, by number.
    pub actions: &'a [Action],
    /// The names of the author's rulebooks in small letters, by number.
    pub rulebooks: &'a [TextBytes],
    /// How many scenes there are.
    pub scenes: u16,
    /// The kind above each kind, by number.
    pub parents: &'a [Option<KindNo>],
    /// The objects of the tale, by number.
    pub objects: &'a [Object],
    ghost few: { length actions.now ≤ 255 },
    ghost countable: { 8 + 2 * scenes + length rulebooks.now ≤ 65535 },
}
