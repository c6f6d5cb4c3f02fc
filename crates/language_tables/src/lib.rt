//! The tables of the language, row by row, as `docs/language.md` and the pages below it list them: definitions read the code's tables too,
//! so that a wrong row would move with them. Each law says that a table is the one which is written out in `specs/`.
#![tactic(auto)]

mod forms;
mod keywords;
mod names;
mod standard;

pub use forms::{
    higher_forms_are_as_written, lower_forms_are_as_written, middle_forms_are_as_written,
    phrase_forms_are_as_written, rule_forms_are_as_written, value_forms_are_as_written,
};
pub use keywords::{
    condition_words_are_as_written, keywords_are_as_written, reserved_words_are_as_written,
    text_words_are_as_written,
};
pub use names::{
    action_names_are_as_written, book_names_are_as_written, headings_are_as_written,
    rule_names_are_as_written,
};
pub use standard::{
    standard_rules_ask_as_written, standard_rules_make_so_as_written,
    standard_rules_tell_as_written,
};
