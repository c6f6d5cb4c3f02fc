//! The player, and the action of looking round.
ghost use Rattle.std.specs.Prelude.{◌≡◌};
ghost use Rattle.play_meaning.specs.Turns.{look_round};

use play_meaning::{ActNo, ActionNow};
use world_meaning::ObjNo;

/// The player.
pub fn player() -> ObjNo
    ensures { result ≡ 0 }
{
    ObjNo::new(0)
}

/// The action of looking round.
pub fn look_round() -> ActionNow
    ensures { result ≡ look_round }
{
    ActionNow {
        action: ActNo::new(0),
        noun: None,
        second: None,
        silent: false,
    }
}
