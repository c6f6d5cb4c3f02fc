//! From a source to a story: the tokens, the sentences, the tale that they mean, and its story file.
#![tactic(auto)]

mod compiler;
mod laws;
mod lines;
mod long_ones;
mod meaning;
mod rules;
mod texts;
mod worked_rows;

pub use compiler::compile;
pub use i7_kinds::{TaleSaid, tale_of};
pub use laws::{
    actions_are_numbered_alike, meant_tales_are_held, never_compiled_and_refused,
    objects_are_numbered_by_name, objects_have_their_texts, one_refusal, one_tale,
    rules_stand_at_their_lines,
};
pub use meaning::{Meant, tale_meant};
pub use story_format::{LoadFault, Story, load, write};
pub use worked_rows::{empty_source_is_refused, two_rooms_are_played};
