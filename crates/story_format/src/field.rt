//! Values that have a format: how each is read from the front of bytes, and written.
ghost use Rattle.std.specs.Prelude.{◌≡◌, ◌++◌, IfOk, OnOk, IsTrue};

use std::alloc::{AllocError, Global};

/// A value of the story file, with its format.
pub trait Field: Sized + Drop {
    ghost use Rattle.std.specs.Prelude.{◌≡◌, ◌++◌, IfOk, OnOk, IsTrue};
    ghost use Rattle.story_format.specs.Formats.{Format, IsFormat, left, seen};

    ghost format: { Format Self };

    /// The value at the front of the bytes and the bytes behind it, or `None` if they are cut.
    fn read(alloc: Global, bytes: &[u8]) -> Result<Option<(Self, &[u8])>, AllocError>
        ensures { IfOk result (λ found. seen found ≡ format.get bytes.now) };

    /// The bytes behind the value at the front, or `None` if they are cut. It takes no memory.
    fn skip(bytes: &[u8]) -> Option<&[u8]>
        ensures { left result ≡ format.skip bytes.now };

    /// Appends the value's bytes.
    fn write(&self, out: &mut Vec<u8>) -> Result<(), AllocError>
        requires { IsTrue (format.fits self.now) }
        ensures { OnOk result (out.new.items ≡ out.old.items ++ format.put self.now) };

    ghost lawful: { IsFormat format };
}

/// Two values, one behind the other.
impl<A: Field, B: Field> Field for (A, B) {
    ghost use Rattle.story_format.specs.Formats.{pair};
    ghost use Rattle.story_format.specs.FormatLaws.{pair_lawful};

    ghost format = { pair A.format B.format };

    fn read(alloc: Global, bytes: &[u8]) -> Result<Option<((A, B), &[u8])>, AllocError> {
        let Some((first, rest)) = A::read(alloc, bytes)? else {
            return Ok(None);
        };
        let Some((second, rest)) = B::read(alloc, rest)? else {
            return Ok(None);
        };
        Ok(Some(((first, second), rest)))
    }

    fn skip(bytes: &[u8]) -> Option<&[u8]> {
        let rest = A::skip(bytes)?;
        B::skip(rest)
    }

    fn write(&self, out: &mut Vec<u8>) -> Result<(), AllocError> {
        self.0.write(out)?;
        self.1.write(out)
    }

    ghost lawful = { pair_lawful A.format B.format A.lawful B.lawful };
}

/// The type of values, one behind the other: each is paired with all behind it, so that what is read is let go of as one.
macro_rules! nested {
    ($kind:ty) => { $kind };
    ($kind:ty, $($more:ty),+) => { ($kind, $crate::field::nested!($($more),+)) };
}

/// The names of values, one behind the other.
macro_rules! parted {
    ($field:ident) => { $field };
    ($field:ident, $($more:ident),+) => { ($field, $crate::field::parted!($($more),+)) };
}

/// Reads a struct's fields in order.
macro_rules! read_fields {
    ($made:ident, $alloc:ident, $bytes:ident, $($field:ident: $kind:ty),+) => {
        match <$crate::field::nested!($($kind),+) as Field>::read($alloc, $bytes)? {
            Some(($crate::field::parted!($($field),+), rest)) => Ok(Some(($made { $($field),+ }, rest))),
            None => Ok(None),
        }
    };
}

/// Skips a struct's fields in order.
macro_rules! skip_fields {
    ($bytes:ident, $($kind:ty),+) => {
        <$crate::field::nested!($($kind),+) as Field>::skip($bytes)
    };
}

/// Writes a struct's fields in order.
macro_rules! write_fields {
    ($value:ident, $out:ident, $($field:ident),+) => {{
        $( $value.$field.write($out)?; )+
        Ok(())
    }};
}

pub(crate) use nested;
pub(crate) use parted;
pub(crate) use read_fields;
pub(crate) use skip_fields;
pub(crate) use write_fields;
