//! What a source declares besides its objects: kinds, properties, variables, scenes, rulebooks, actions and kinds of value.

use crate::kinds::KindNo;
use crate::listed::Listed;
use crate::needs::Needs;
use crate::text::TextBytes;

/// A property: the kinds that it is given to, rising.
#[derive(Drop)]
pub struct Granted {
    pub kinds: Listed<u8>,
}

/// A kind of value (*Writing with Inform*, 4.9): the names of its values, in order, and the kinds of which each object has
/// one of them.
#[derive(Drop)]
pub struct ValueKind {
    pub names: Listed<TextBytes>,
    pub given: Granted,
}

/// What a source declares besides its objects.
#[derive(Drop)]
pub struct Declared {
    /// Of each kind, by number, the kind above it; the built-in kinds stand first.
    pub kinds: Listed<Option<KindNo>>,
    /// The either-or properties, by number; the built-in ones stand first.
    pub flags: Listed<Granted>,
    /// The number properties, by number.
    pub numbers: Listed<Granted>,
    /// What each variable is as the story begins.
    pub variables: Listed<i32>,
    /// Of each scene, by number, whether it may happen again.
    pub scenes: Listed<bool>,
    /// How many rulebooks there are of the author's own.
    pub rulebooks: usize,
    /// What each of the author's actions asks for, in the order of their sentences.
    pub actions: Listed<Needs>,
    /// The kinds of value, by number.
    pub values: Listed<ValueKind>,
}
