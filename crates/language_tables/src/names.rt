//! The names that mean something before any sentence.
ghost use Rattle.std.specs.Prelude.{◌≡◌, map};
ghost use Rattle.i7_actions.specs.Actions.{standard_actions};
ghost use Rattle.i7_claims.specs.declared.reserved_names.TheConstants.{BOOKS, RESERVED};
ghost use Rattle.i7_rules.specs.RuleList.{standard_names};
ghost use Rattle.i7_sentences.specs.declared.cut.TheConstants.{HEADINGS};
ghost use Rattle.language_tables.specs.WrittenNames.{written_actions, written_books, written_headings, written_reserved_names, written_rules};

/// The words that open a heading.
pub fn headings_are_as_written()
    ensures { map (λ word. word.now) HEADINGS ≡ written_headings }
{}

/// The words that stand for an object or a number, and the rulebooks that a source doesn't declare.
pub fn book_names_are_as_written()
    ensures reserved { map (λ name. name.now) RESERVED ≡ written_reserved_names }
    ensures books { map (λ name. name.now) BOOKS ≡ written_books }
{}

/// The standard actions, by number.
#[tactic(auto, unfolding(i7_actions::specs::Actions::standard_actions))]
pub fn action_names_are_as_written()
    ensures { standard_actions ≡ written_actions }
{}

/// The standard rules, by number.
#[tactic(auto, unfolding(i7_rules::specs::RuleList::standard_names))]
pub fn rule_names_are_as_written()
    ensures { standard_names ≡ written_rules }
{}
