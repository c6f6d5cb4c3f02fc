//! What the names of a source stand for: objects, kinds, properties, variables, scenes, kinds of value and values, each by its
//! number.
#![tactic(auto)]

mod laws;
mod meant;
mod naming;
mod number;
mod numbering;
mod plural_names;
mod source_names;

pub use laws::{names_stand_for_what_is, names_stand_for_what_is_claimed};
pub use source_names::{SourceNames, names_in};
