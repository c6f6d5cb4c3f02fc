//! Table 10: rules.

use crate::field::{Field, read_fields, skip_fields, write_fields};
use std::alloc::{AllocError, Global};
use world_meaning::Listed;

/// A property that an aspect asks, and which of its names.
#[derive(Drop)]
pub struct PropertySide {
    pub property: u8,
    /// 1 the first name, 0 the second, 3 not the first, 2 not the second.
    pub side: u8,
}

#[tactic(auto, unfolding(crate::specs::Layout::side_layout))]
impl Field for PropertySide {
    ghost use Rattle.story_format.specs.Layout.{side_layout};

    ghost format = { side_layout.format };

    fn read(alloc: Global, bytes: &[u8]) -> Result<Option<(PropertySide, &[u8])>, AllocError> {
        read_fields!(PropertySide, alloc, bytes, property: u8, side: u8)
    }

    fn skip(bytes: &[u8]) -> Option<&[u8]> {
        skip_fields!(bytes, u8, u8)
    }

    fn write(&self, out: &mut Vec<u8>) -> Result<(), AllocError> {
        write_fields!(self, out, property, side)
    }

    ghost lawful = { side_layout.lawful };
}

/// A kind that an aspect asks, and properties of it.
#[derive(Drop)]
pub struct KindAspect {
    pub kind: u8,
    pub properties: Listed<PropertySide>,
}

#[tactic(auto, unfolding(crate::specs::Layout::kind_aspect_layout))]
impl Field for KindAspect {
    ghost use Rattle.story_format.specs.Layout.{kind_aspect_layout};

    ghost format = { kind_aspect_layout.format };

    fn read(alloc: Global, bytes: &[u8]) -> Result<Option<(KindAspect, &[u8])>, AllocError> {
        read_fields!(KindAspect, alloc, bytes, kind: u8, properties: Listed<PropertySide>)
    }

    fn skip(bytes: &[u8]) -> Option<&[u8]> {
        skip_fields!(bytes, u8, Listed<PropertySide>)
    }

    fn write(&self, out: &mut Vec<u8>) -> Result<(), AllocError> {
        write_fields!(self, out, kind, properties)
    }

    ghost lawful = { kind_aspect_layout.lawful };
}

/// What a rule asks of a noun or a place.
#[derive(Drop)]
pub enum Aspect {
    Anything,
    Object(u16),
    Kind(KindAspect),
    /// A first byte that tells no aspect; nothing stands behind it.
    Unknown(u8),
}

#[tactic(auto, unfolding(crate::specs::Layout::aspect_layout))]
impl Field for Aspect {
    ghost use Rattle.story_format.specs.Layout.{aspect_layout};

    ghost format = { aspect_layout.format };

    fn read(alloc: Global, bytes: &[u8]) -> Result<Option<(Aspect, &[u8])>, AllocError> {
        match bytes {
            [] => Ok(None),
            [tag, rest @ ..] => match *tag {
                0 => Ok(Some((Aspect::Anything, rest))),
                1 => {
                    let Some((object, rest)) = u16::read(alloc, rest)? else {
                        return Ok(None);
                    };
                    Ok(Some((Aspect::Object(object), rest)))
                }
                2 => {
                    let Some((kind, rest)) = KindAspect::read(alloc, rest)? else {
                        return Ok(None);
                    };
                    Ok(Some((Aspect::Kind(kind), rest)))
                }
                tag => Ok(Some((Aspect::Unknown(tag), rest))),
            },
        }
    }

    fn skip(bytes: &[u8]) -> Option<&[u8]> {
        match bytes {
            [] => None,
            [tag, rest @ ..] => match *tag {
                0 => Some(rest),
                1 => u16::skip(rest),
                2 => KindAspect::skip(rest),
                _ => Some(rest),
            },
        }
    }

    fn write(&self, out: &mut Vec<u8>) -> Result<(), AllocError> {
        match self {
            Aspect::Anything => 0u8.write(out),
            Aspect::Object(object) => {
                1u8.write(out)?;
                object.write(out)
            }
            Aspect::Kind(kind) => {
                2u8.write(out)?;
                kind.write(out)
            }
            Aspect::Unknown(tag) => tag.write(out),
        }
    }

    ghost lawful = { aspect_layout.lawful };
}

/// What a rule does.
#[derive(Drop)]
pub enum RuleBody {
    /// The author's code.
    Code(u16),
    /// A standard rule.
    Standard(u8),
    /// A first byte that tells no body; nothing stands behind it.
    Unknown(u8),
}

#[tactic(auto, unfolding(crate::specs::Layout::body_layout))]
impl Field for RuleBody {
    ghost use Rattle.story_format.specs.Layout.{body_layout};

    ghost format = { body_layout.format };

    fn read(alloc: Global, bytes: &[u8]) -> Result<Option<(RuleBody, &[u8])>, AllocError> {
        match bytes {
            [] => Ok(None),
            [tag, rest @ ..] => match *tag {
                0 => {
                    let Some((code, rest)) = u16::read(alloc, rest)? else {
                        return Ok(None);
                    };
                    Ok(Some((RuleBody::Code(code), rest)))
                }
                1 => {
                    let Some((rule, rest)) = u8::read(alloc, rest)? else {
                        return Ok(None);
                    };
                    Ok(Some((RuleBody::Standard(rule), rest)))
                }
                tag => Ok(Some((RuleBody::Unknown(tag), rest))),
            },
        }
    }

    fn skip(bytes: &[u8]) -> Option<&[u8]> {
        match bytes {
            [] => None,
            [tag, rest @ ..] => match *tag {
                0 => u16::skip(rest),
                1 => u8::skip(rest),
                _ => Some(rest),
            },
        }
    }

    fn write(&self, out: &mut Vec<u8>) -> Result<(), AllocError> {
        match self {
            RuleBody::Code(code) => {
                0u8.write(out)?;
                code.write(out)
            }
            RuleBody::Standard(rule) => {
                1u8.write(out)?;
                rule.write(out)
            }
            RuleBody::Unknown(tag) => tag.write(out),
        }
    }

    ghost lawful = { body_layout.lawful };
}

/// A rule, as table 10 has it.
#[derive(Drop)]
pub struct RuleEntry {
    pub book: u16,
    pub action: u8,
    pub noun: Aspect,
    pub second: Aspect,
    pub place: Aspect,
    pub scene: u8,
    /// The code of its condition.
    pub condition: u16,
    pub body: RuleBody,
}

#[tactic(auto, unfolding(crate::specs::Layout::rule_layout))]
impl Field for RuleEntry {
    ghost use Rattle.story_format.specs.Layout.{rule_layout};

    ghost format = { rule_layout.format };

    fn read(alloc: Global, bytes: &[u8]) -> Result<Option<(RuleEntry, &[u8])>, AllocError> {
        read_fields!(RuleEntry, alloc, bytes, book: u16, action: u8, noun: Aspect, second: Aspect, place: Aspect, scene: u8, condition: u16, body: RuleBody)
    }

    fn skip(bytes: &[u8]) -> Option<&[u8]> {
        skip_fields!(bytes, u16, u8, Aspect, Aspect, Aspect, u8, u16, RuleBody)
    }

    fn write(&self, out: &mut Vec<u8>) -> Result<(), AllocError> {
        write_fields!(
            self, out, book, action, noun, second, place, scene, condition, body
        )
    }

    ghost lawful = { rule_layout.lawful };
}
