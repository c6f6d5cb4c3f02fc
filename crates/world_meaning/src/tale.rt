//! The tale: what the sentences of a source say there is.
use crate::{Article, Declared, Exits, KindNo, Listed, Place, TextBytes};

/// An object as the source's sentences have it.
#[derive(Drop)]
pub struct Object {
    pub kind: KindNo,
    /// The name as printed, its words parted by one space.
    pub name: TextBytes,
    pub article: Article,
    pub description: Option<TextBytes>,
    /// Where the object is when the story begins.
    pub place: Option<Place>,
    pub exits: Exits,
    /// The either-or properties that are true of it as the story begins, rising.
    pub properties: Listed<u8>,
    /// What its number properties are as the story begins, by their numbers.
    pub numbers: Listed<i32>,
    /// Its values as the story begins, one of each kind of value that its kind has, by the numbers of these.
    pub values: Listed<u8>,
}

/// What a source means.
#[derive(Drop)]
pub struct Tale {
    pub declared: Declared,
    /// The objects, by number.
    pub objects: Listed<Object>,
}
