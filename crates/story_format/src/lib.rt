//! The story file's format: what a story's bytes are, and how they are written and loaded. A story is
//! its tables, each put into bytes by a format that is known to lose nothing.
#![tactic(auto)]

mod actions;
mod book_rules;
mod checks;
mod codes;
mod coding;
mod contents;
mod counts;
mod fact_laws;
mod facts;
mod fault;
mod field;
mod grammar_facts;
mod grammar_making;
mod kind_tables;
mod laws;
mod loading;
mod making;
mod mentioning;
mod mentioning_rules;
mod number;
mod once;
mod ordering;
mod place;
mod play_facts;
mod row;
mod rule_checks;
mod rule_codes;
mod rule_entry;
mod rule_facts;
mod rule_making;
mod rule_tables;
mod soundness;
mod standard_rules;
mod standing;
mod story;
mod table;
mod tables;
mod text;
mod value_checks;
mod value_facts;
mod value_making;
mod value_tables;
mod world_checks;
mod world_making;
mod world_tables;
mod writing;

pub use coding::numbered;
pub use contents::Contents;
pub use fact_laws::stories_begin_in_order;
pub use facts::{door_in, way_in};
pub use fault::LoadFault;
pub use laws::{
    first_version_stands, never_held_and_not, one_fault, one_spelling, one_story,
    plain_texts_are_held, spelled_or_refused, stories_lead_to_rooms, stories_stand,
    story_carries_tale, tales_are_stories, told_alike_are_one,
};
pub use loading::load;
pub use rule_entry::{Aspect, KindAspect, PropertySide, RuleBody, RuleEntry};
pub use rule_tables::{ActionEntry, SceneEntry};
pub use story::Story;
pub use writing::write;
