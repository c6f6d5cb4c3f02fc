//! The rules of a source once names are known: what each phrase of a body is as a line of it, the body that its phrases
//! are, the rule with its head, and all rules of a source.
#![tactic(auto)]

mod about;
mod body;
mod doing;
mod head;
mod known;
mod laws;
mod rule;
mod rule_list;
mod rule_names;
mod saying;
mod source_rules;
mod standard_names;
mod step;

pub use about::scene_of;
pub use body::{BodyRead, body_of};
pub use head::book_of_head;
pub use known::Known;
pub use laws::{heads_ask_what_is, one_list_of_rules, one_rule_is_told};
pub use rule::{RuleFound, rule_of};
pub use rule_list::{RuleAt, rules_in};
pub use rule_names::name_of;
pub use source_rules::{RulesFound, SourceRule, rules_of};
pub use standard_names::STANDARD_NAMES;
