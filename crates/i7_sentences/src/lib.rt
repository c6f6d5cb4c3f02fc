//! The reader of sentences: what the tokens of a source say, sentence by sentence.
//!
//! Tokens are cut into sentences, each sentence is given the lowest form that fits it, with the
//! shortest words for each of the form's letters, and the names in it are tested.
//!
//! How most forms are passed over for each sentence is marked `inline(always)`: as one loop it takes a fifth less.
#![tactic(auto)]

mod action_declaration;
mod action_form;
mod assertion;
mod body;
mod body_order;
mod body_place;
mod brackets;
mod class;
mod column_stack;
mod condition;
mod cut;
mod declaration;
mod describing;
mod due;
mod form;
mod grammar_sentence;
mod head_words;
mod heard;
mod keyword;
mod kinds_of_value;
mod laws;
mod letter;
mod lookahead;
mod low;
mod matcher;
mod name;
mod names;
mod part;
mod phrase_form;
mod phrase_mark;
mod plural;
mod reader;
mod reading;
mod reserved;
mod rule;
mod rule_body;
mod rule_form;
mod rule_head;
mod rule_listing;
mod rule_reader;
mod scene_change;
mod sentence;
mod sentence_form;
mod signs;
mod spoken;
mod spoken_reader;
mod stretch;
mod tagged;
mod text_ifs;
mod text_piece;
mod text_reader;
mod text_words;
mod value_assertion;
mod value_form;
mod value_names;
mod value_reading;
mod word;
mod word_list;

pub use action_declaration::ActionDeclaration;
pub use action_form::{ACTION_FORMS, ActionSort};
pub use body::{PhraseLine, phrases_of};
pub use body_order::{body_fault, reserved_line};
pub use brackets::{behind_closing, in_front_of_closing};
pub use class::{Class, State};
pub use cut::{HEADINGS, is_final};
pub use form::{Form, FormRow, Piece};
pub use grammar_sentence::Understanding;
pub use keyword::{ARTICLES, KEYWORDS, Keyword, RESERVED};
pub use laws::{
    cut_is_exact, forms_that_fit_speak, found_is_read, heads_are_parted_at_the_first,
    kinds_of_value_are_declared, one_list_of_sentences, one_reading, one_refusal, read_or_unread,
    sentence_lines_rise, spelled_or_refused,
};
pub use low::lower_of;
pub use name::{Name, NameArticle};
pub use names::Names;
pub use part::{Part, PartKind};
pub use phrase_form::{PHRASE_FORMS, PhraseForm, PhraseShape, shape_in};
pub use phrase_mark::PhraseMark;
pub use plural::{front_of, plural_of, with_end};
pub use reader::read;
pub use rule::{Rule, RuleBody, RuleBook, RulePhrase, RuleSubject};
pub use rule_listing::{ListedIn, RuleListing};
pub use scene_change::{SceneChange, SceneEdge};
pub use sentence::{Assertion, Being, Holder, Sentence, Side, Way};
pub use sentence_form::{HIGHER_FORMS, LOWER_FORMS, MIDDLE_FORMS};
pub use spoken::Spoken;
pub use text_piece::{TextPiece, TextPieces};
pub use text_reader::{first_part, read_text};
pub use value_form::{KIND_OF_VALUE, KindLetter, VALUE_FORMS, VALUE_ITSELF};
pub use word_list::WordList;
