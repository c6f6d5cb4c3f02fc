//! What the words of rules and descriptions mean, once names are known: objects, numbers, descriptions, conditions, texts
//! and phrases. What is joined by one word again and again is a list, so a tree is no deeper than the language nests.
mod condition;
mod number;
mod object;
mod pattern;
mod phrase;
mod rule;
mod said;
mod scene;

pub use condition::{Basic, Clause, Condition, Conjunction};
pub use number::{Joined, Number, Operator, Term};
pub use object::{Adjective, Description, Held, Quality, Referent, Side};
pub use pattern::{Aspect, Listing, Pattern};
pub use phrase::{Branch, Phrase, Simple};
pub use rule::{MeantRule, RuleHead};
pub use said::{Piece, Said, Text};
pub use scene::MeantScene;
