//! Numbers: a byte, and numbers of two and four bytes, the highest byte first.
ghost use Rattle.std.specs.Prelude.{◌≡◌, nat_lt, length, drop, None, Some, if◌then◌else◌};
ghost use Rattle.std.specs.Int.{w16};
ghost use Rattle.story_format.specs.Formats.{left, number, seen};

use crate::field::Field;
use byteorder::{BigEndian, ByteOrder};
use std::alloc::{AllocError, Global};

/// The number of two bytes at the front, and the bytes behind it.
pub fn number16(bytes: &[u8]) -> Option<(u16, &[u8])>
    ensures { seen result ≡ (number w16).get bytes.now }
{
    if bytes.len() < 2 {
        return None;
    }
    let (front, rest) = bytes.split_at(2);
    Some((u16::from_be_bytes([front[0], front[1]]), rest))
}

/// The bytes behind the first so many.
pub fn behind(count: usize, bytes: &[u8]) -> Option<&[u8]>
    ensures { left result ≡ (if nat_lt (length bytes.now) count then None else Some (drop count bytes.now)) }
{
    if bytes.len() < count {
        return None;
    }
    let (_, rest) = bytes.split_at(count);
    Some(rest)
}

impl Field for u8 {
    ghost use Rattle.story_format.specs.Formats.{byte};
    ghost use Rattle.story_format.specs.FormatLaws.{byte_lawful};

    ghost format = { byte };

    fn read(_alloc: Global, bytes: &[u8]) -> Result<Option<(u8, &[u8])>, AllocError> {
        match bytes {
            [] => Ok(None),
            [first, rest @ ..] => Ok(Some((*first, rest))),
        }
    }

    fn skip(bytes: &[u8]) -> Option<&[u8]> {
        match bytes {
            [] => None,
            [_, rest @ ..] => Some(rest),
        }
    }

    fn write(&self, out: &mut Vec<u8>) -> Result<(), AllocError> {
        out.push(*self)?;
        Ok(())
    }

    ghost lawful = { byte_lawful };
}

impl Field for u16 {
    ghost use Rattle.story_format.specs.FormatLaws.{number16_lawful};

    ghost format = { number w16 };

    fn read(_alloc: Global, bytes: &[u8]) -> Result<Option<(u16, &[u8])>, AllocError> {
        Ok(number16(bytes))
    }

    fn skip(bytes: &[u8]) -> Option<&[u8]> {
        behind(2, bytes)
    }

    fn write(&self, out: &mut Vec<u8>) -> Result<(), AllocError> {
        let mut bytes = [0; 2];
        BigEndian::write_u16(&mut bytes, *self);
        out.extend_from_slice(&bytes)
    }

    ghost lawful = { number16_lawful };
}

impl Field for u32 {
    ghost use Rattle.std.specs.Int.{w32};
    ghost use Rattle.story_format.specs.FormatLaws.{number32_lawful};

    ghost format = { number w32 };

    fn read(_alloc: Global, bytes: &[u8]) -> Result<Option<(u32, &[u8])>, AllocError> {
        if bytes.len() < 4 {
            return Ok(None);
        }
        let (front, rest) = bytes.split_at(4);
        Ok(Some((
            u32::from_be_bytes([front[0], front[1], front[2], front[3]]),
            rest,
        )))
    }

    fn skip(bytes: &[u8]) -> Option<&[u8]> {
        behind(4, bytes)
    }

    fn write(&self, out: &mut Vec<u8>) -> Result<(), AllocError> {
        let mut bytes = [0; 4];
        BigEndian::write_u32(&mut bytes, *self);
        out.extend_from_slice(&bytes)
    }

    ghost lawful = { number32_lawful };
}
