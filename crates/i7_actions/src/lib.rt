//! What `try` and `follow` say by their words: which action is tried on which objects, and which rulebook is followed.
#![tactic(auto)]

mod action;
mod book;
mod choice;
mod noun;
mod nouns;
mod part;
mod tried;

pub use action::{
    Action, NounCount, STANDARD_ACTIONS, action_named, nouns_are_those_needed, standard_actions,
};
pub use book::{book_of, one_book_is_followed, own_book_of};
pub use choice::is_better;
pub use noun::noun_said;
pub use part::{behind, is_name, parts_of};
pub use tried::{Tried, one_action_is_tried, tried_of};
