//! Why nothing is told of a source.
use std::alloc::AllocError;
use story_format::LoadFault;
use thiserror::Error;
use world_meaning::Fault;

/// Why nothing is told of a source.
#[derive(Debug, Drop, Error)]
pub enum Unlisted {
    /// The source is refused.
    #[error("{0}")]
    Refused(#[from] Fault),
    /// The story that it is compiled to isn't loaded.
    #[error("{0}")]
    Unloaded(#[from] LoadFault),
    #[error("out of memory")]
    Memory(#[from(alloc)] AllocError),
}
