//! The numbers by which objects are named.
ghost use Rattle.std.specs.Prelude.{◌≡◌};

use std::marker::Model;

/// An object's number: 0 the player, 1 to 12 the directions, then the author's objects.
#[derive(Clone, Copy, Debug, Hash, PartialEq, Eq)]
pub struct ObjNo(u16);

impl Model for ObjNo {
    ghost use Rattle.std.specs.Prelude.{ℕ};

    ghost Value = { ℕ };

    ghost view = { λ o. o.0 };

    ghost inverse = { λ n. record { 0 = n } };
}

impl ObjNo {
    /// The first object of the author's: behind the player and the directions.
    pub const FIRST_OF_AUTHOR: ObjNo = ObjNo(13);

    /// The object of this number.
    pub const fn new(number: u16) -> ObjNo
        ensures { result ≡ number }
    {
        ObjNo(number)
    }

    /// The object's number.
    pub const fn get(self) -> u16
        ensures { result ≡ self }
    {
        self.0
    }
}
