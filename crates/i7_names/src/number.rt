//! The number of a name: its place among those of its sort.
ghost use Rattle.std.specs.Prelude.{◌≡◌};
ghost use Rattle.i7_names.specs.Numbers.{object_number, small_number};

use object_words::Strings;

/// The number of a name, if a byte holds it.
pub fn small_number(names: &Strings, name: &[u8]) -> Option<u8>
    ensures { result ≡ small_number names.now name.now }
{
    let place = names.place_of(name)?;
    u8::try_from(place).ok()
}

/// The number of an object's name, if two bytes hold it.
pub fn object_number(names: &Strings, name: &[u8]) -> Option<u16>
    ensures { result ≡ object_number names.now name.now }
{
    let place = names.place_of(name)?;
    u16::try_from(place).ok()
}
