//! The index of a story as one page: its map, its world, kinds, actions, rulebooks, words and figures, each entry with its line. What is told is what the
//! compiler says of the source; what a source says is shown as it is, whatever bytes it has.
#![tactic(auto)]

mod actions;
mod drawing;
mod figures;
mod glance;
mod html;
mod kinds;
mod label;
mod laws;
mod listing;
mod map;
mod naming;
mod page;
mod properties;
mod rules;
mod style;
mod tale_index;
mod words;
mod world;

pub use laws::{shown_texts_are_no_markup, shown_texts_are_read_back};
pub use page::index_page;
