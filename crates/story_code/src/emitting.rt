//! The codes of trees.
pub(crate) mod condition;
mod number;
mod object;
pub(crate) mod output;
pub(crate) mod phrase;
mod tested;
pub(crate) mod text;
