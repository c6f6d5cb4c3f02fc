//! What a story file says of a tale.
use command_grammar::{GrammarLine, Synonym};
use play_meaning::tree::{MeantRule, MeantScene, Text};
use rule_order::ListingSentence;

/// What is said of a tale, besides its objects and what is declared.
#[derive(Drop)]
pub struct Contents {
    /// What descriptions say, in the order of the objects that are described.
    pub texts: Vec<Text>,
    /// The author's rules, in the order of the source; what the head of one says of its listing doesn't count.
    pub rules: Vec<MeantRule>,
    /// Where sentences list rules, those that every story has among them, by number.
    pub listings: Vec<ListingSentence>,
    /// The tale's scenes, with what they begin and end on.
    pub scenes: Vec<MeantScene>,
    /// The author's lines of the grammar, in the order of the source.
    pub lines: Vec<GrammarLine>,
    /// The words that objects go by besides those of their names, in the order of the source, in small letters.
    pub synonyms: Vec<Synonym>,
}
