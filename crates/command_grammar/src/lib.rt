//! The grammar of commands as it is told and kept (*Writing with Inform*, chapter 17): lines and their tokens, the lines that every
//! story understands, and the words that objects go by besides those of their names.
#![tactic(auto)]

mod line;
mod standard_grammar;
mod synonym;
mod token;

pub use line::{GrammarLine, KeptToken, MOST_TOKENS};
pub use standard_grammar::standard_lines;
pub use synonym::{Synonym, words_said};
pub use token::Token;
