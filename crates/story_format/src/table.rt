//! The formats of lists of values: a table behind a count of two bytes, a list behind a count of one.
ghost use Rattle.std.specs.Prelude.{◌≡◌, ◌++◌, IfOk, OnOk, IsTrue};
ghost use Rattle.std.specs.List.{flat_map, list_all};
ghost use Rattle.story_format.specs.Formats.{get_many, left, seen_all, skip_many};

use crate::field::Field;
use crate::number::number16;
use std::alloc::{AllocError, Global};
use std::marker::Model;
use world_meaning::Listed;

/// The entries of a table, in order.
#[derive(Drop)]
pub struct Table<F> {
    all: Vec<F>,
}

impl<F> Model for Table<F> {
    ghost use Rattle.std.specs.Prelude.{List};

    ghost Value = { List F };

    ghost view = { λ table. table.all.items };
}

impl<F> Table<F> {
    /// The table of these entries.
    pub fn new(all: Vec<F>) -> Table<F>
        ensures { result ≡ all.items }
    {
        Table { all }
    }

    /// The entries, in order.
    pub fn as_slice(&self) -> &[F]
        ensures { result.now ≡ self.now }
    {
        self.all.as_slice()
    }
}

/// That many values from the front of the bytes, and the bytes behind them. Memory grows with the
/// values that are there, and not with the count.
pub fn read_many<F: Field>(
    alloc: Global,
    count: usize,
    bytes: &[u8],
) -> Result<Option<(Vec<F>, &[u8])>, AllocError>
    ensures { IfOk result (λ found. seen_all found ≡ get_many F.format.get count bytes.now) }
{
    let mut all = Vec::new(alloc);
    let mut rest = bytes;
    for _ in 0..count {
        let Some((value, after)) = F::read(alloc, rest)? else {
            return Ok(None);
        };
        all.push(value)?;
        rest = after;
    }
    Ok(Some((all, rest)))
}

/// Appends the values' bytes, one behind the other.
pub fn write_all<F: Field>(values: &[F], out: &mut Vec<u8>) -> Result<(), AllocError>
    requires { IsTrue (list_all F.format.fits values.now) }
    ensures { OnOk result (out.new.items ≡ out.old.items ++ flat_map F.format.put values.now) }
{
    for value in values {
        value.write(out)?;
    }
    Ok(())
}

/// The bytes behind that many values, or `None` if they are cut.
pub fn skip_many<F: Field>(count: usize, bytes: &[u8]) -> Option<&[u8]>
    ensures { left result ≡ skip_many F.format.skip count bytes.now }
{
    let mut rest = bytes;
    for _ in 0..count {
        let Some(after) = F::skip(rest) else {
            return None;
        };
        rest = after;
    }
    Some(rest)
}

impl<F: Field> Field for Table<F> {
    ghost use Rattle.std.specs.Int.{w16};
    ghost use Rattle.story_format.specs.Formats.{number, counted};
    ghost use Rattle.story_format.specs.FormatLaws.{number16_lawful, counted_lawful};

    ghost format = { counted (number w16) F.format };

    fn read(alloc: Global, bytes: &[u8]) -> Result<Option<(Table<F>, &[u8])>, AllocError> {
        let Some((count, rest)) = number16(bytes) else {
            return Ok(None);
        };
        let Some((all, rest)) = read_many(alloc, count as usize, rest)? else {
            return Ok(None);
        };
        Ok(Some((Table { all }, rest)))
    }

    fn skip(bytes: &[u8]) -> Option<&[u8]> {
        let (count, rest) = number16(bytes)?;
        skip_many::<F>(count as usize, rest)
    }

    fn write(&self, out: &mut Vec<u8>) -> Result<(), AllocError> {
        (self.all.len() as u16).write(out)?;
        write_all(self.all.as_slice(), out)
    }

    ghost lawful = { counted_lawful (number w16) F.format number16_lawful F.lawful };
}

impl<F: Field> Field for Listed<F> {
    ghost use Rattle.story_format.specs.Formats.{byte, counted};
    ghost use Rattle.story_format.specs.FormatLaws.{byte_lawful, counted_lawful};

    ghost format = { counted byte F.format };

    fn read(alloc: Global, bytes: &[u8]) -> Result<Option<(Listed<F>, &[u8])>, AllocError> {
        let Some((count, rest)) = u8::read(alloc, bytes)? else {
            return Ok(None);
        };
        let Some((all, rest)) = read_many(alloc, count as usize, rest)? else {
            return Ok(None);
        };
        Ok(Some((Listed::new(all), rest)))
    }

    fn skip(bytes: &[u8]) -> Option<&[u8]> {
        match bytes {
            [] => None,
            [count, rest @ ..] => skip_many::<F>(*count as usize, rest),
        }
    }

    fn write(&self, out: &mut Vec<u8>) -> Result<(), AllocError> {
        (self.as_slice().len() as u8).write(out)?;
        write_all(self.as_slice(), out)
    }

    ghost lawful = { counted_lawful byte F.format byte_lawful F.lawful };
}
