//! What sentences on commands and words mean once names are known (*Writing with Inform*, 17.2, 17.8): the lines that ask for actions, and
//! the words that objects go by besides those of their names; or why the source is refused for them.
#![tactic(auto)]

mod grammar;
mod known;
mod laws;
mod limits;
mod target;
mod telling;
mod text_tokens;
mod text_words;
mod understood;
mod word_table;

pub use grammar::{Grammar, GrammarFound, grammar_of};
pub use laws::{grammar_is_sound, one_grammar};
pub use target::Target;
