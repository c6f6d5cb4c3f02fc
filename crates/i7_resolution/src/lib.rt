//! What the rules of a source are, what the texts say that describe its objects, where sentences list its rules, when its scenes begin
//! and end, and what commands and words mean, once its names are known, or why the source is refused for them, for its actions or for
//! its rulebooks' names.
#![tactic(auto)]

mod action_list;
mod book_name;
mod laws;
mod listing;
mod listing_list;
mod numbered_rule;
mod resolution;
mod scene_change;
mod scene_change_list;
mod scene_twice;
mod source_actions;
mod source_listings;
mod source_scenes;
mod source_texts;
mod text_list;

pub use laws::{one_list_of_listings, one_list_of_scenes, one_list_of_texts, one_resolution};
pub use resolution::{Resolution, Resolved, resolution_of, text_said};
pub use source_listings::{ListingsFound, listings_of};
pub use source_scenes::{ScenesFound, scenes_of};
pub use source_texts::{SourceText, TextsFound, texts_of};
