//! What the words of rules and descriptions mean once names are known: objects, descriptions, numbers and conditions, as
//! the trees of `play_meaning`.
#![tactic(auto)]

mod adjective;
mod asking;
mod between;
mod clause;
mod comparison;
mod condition;
mod description;
mod doing;
mod found;
mod front;
mod joining;
mod joint;
mod key;
mod line;
mod mark;
mod meaning;
mod names;
mod nesting;
mod number;
mod object;
mod operator;
mod part;
mod plain;
mod predicate;
mod relation;
mod run;
mod scope;
mod term;
mod value;
mod verb;
mod word;

pub use adjective::{adjective_named, quality_named};
pub use asking::scene_named;
pub use between::parted_said;
pub use clause::{clause_of, split_is};
pub use condition::{condition_of, condition_said, one_condition_is_meant};
pub use description::{
    MOST_ADJECTIVES, description_of, description_said, one_description_is_meant,
};
pub use found::Found;
pub use front::{Front, front_of};
pub use joining::number_said;
pub use key::{is_named, property_named, split_of, variable_named};
pub use line::{Line, Step};
pub use meaning::Meaning;
pub use names::Names;
pub use nesting::{nest, one_body_is_nested};
pub use number::{number_of, one_number_is_meant};
pub use object::{object_of, object_said, one_object_is_meant};
pub use relation::relation_at;
pub use scope::Scope;
pub use value::{Valuing, kind_and_object, value_said};
pub use word::{key_of, without_article};
