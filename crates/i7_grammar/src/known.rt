//! What the words behind `as` may name.
ghost use Rattle.std.specs.Prelude.{◌≤◌, length};

use i7_actions::Action;
use i7_conditions::Names;
use world_meaning::Object;

/// What there is: names, actions by number, and objects by number.
#[derive(Clone, Copy)]
pub struct Known<'a> {
    pub names: &'a Names,
    pub actions: &'a [Action],
    pub objects: &'a [Object],
    ghost few: { length actions.now ≤ 255 },
}
