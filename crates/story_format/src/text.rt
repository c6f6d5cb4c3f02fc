//! Texts: bytes behind their number.

use crate::field::Field;
use crate::number::{behind, number16};
use std::alloc::{AllocError, Global};
use world_meaning::TextBytes;

impl Field for TextBytes {
    ghost use Rattle.story_format.specs.Formats.{text};
    ghost use Rattle.story_format.specs.FormatLaws.{text_lawful};

    ghost format = { text };

    fn read(alloc: Global, bytes: &[u8]) -> Result<Option<(TextBytes, &[u8])>, AllocError> {
        let Some((len, rest)) = number16(bytes) else {
            return Ok(None);
        };
        let len = len as usize;
        if rest.len() < len {
            return Ok(None);
        }
        let (text, rest) = rest.split_at(len);
        Ok(Some((TextBytes::copied(alloc, text)?, rest)))
    }

    fn skip(bytes: &[u8]) -> Option<&[u8]> {
        let (len, rest) = number16(bytes)?;
        behind(len as usize, rest)
    }

    fn write(&self, out: &mut Vec<u8>) -> Result<(), AllocError> {
        let bytes = self.as_slice();
        (bytes.len() as u16).write(out)?;
        out.extend_from_slice(bytes)
    }

    ghost lawful = { text_lawful };
}
