//! Actions: which is tried, and on what.
ghost use Rattle.std.specs.Prelude.{◌≡◌};

use std::marker::Model;
use world_meaning::ObjNo;

/// An action's number: the built-in ones, then the author's.
#[derive(Clone, Copy, Debug, PartialEq, Eq)]
pub struct ActNo(u8);

impl Model for ActNo {
    ghost use Rattle.std.specs.Prelude.{ℕ};

    ghost Value = { ℕ };

    ghost view = { λ a. a.0 };

    ghost inverse = { λ n. record { 0 = n } };
}

impl ActNo {
    /// The number that stands for no action.
    pub const NONE: ActNo = ActNo(255);

    /// The action of this number.
    pub const fn new(number: u8) -> ActNo
        ensures { result ≡ number }
    {
        ActNo(number)
    }

    /// The action's number.
    pub const fn get(self) -> u8
        ensures { result ≡ self }
    {
        self.0
    }
}

/// An action that is tried, with its nouns.
#[derive(Clone, Copy, Debug)]
pub struct ActionNow {
    pub action: ActNo,
    pub noun: Option<ObjNo>,
    pub second: Option<ObjNo>,
    /// Whether it leaves out its report.
    pub silent: bool,
}
