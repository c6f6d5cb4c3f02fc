//! Lists of values, which contracts see as lists.
ghost use Rattle.std.specs.Prelude.{◌≡◌};

use std::marker::Model;

/// Values in order.
#[derive(Debug, Drop)]
pub struct Listed<T> {
    all: Vec<T>,
}

impl<T> Model for Listed<T> {
    ghost use Rattle.std.specs.Prelude.{List};

    ghost Value = { List T };

    ghost view = { λ list. list.all.items };
}

impl<T> Listed<T> {
    /// The list of these values.
    pub fn new(all: Vec<T>) -> Listed<T>
        ensures { result ≡ all.items }
    {
        Listed { all }
    }

    /// The values, in order.
    #[inline(always)]
    pub fn as_slice(&self) -> &[T]
        ensures { result.now ≡ self.now }
    {
        self.all.as_slice()
    }
}
