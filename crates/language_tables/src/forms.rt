//! The forms of sentences, of rules' heads and of phrases.
ghost use Rattle.std.specs.Prelude.{◌≡◌, map};
ghost use Rattle.i7_sentences.specs.Forms.{higher_forms, lower_forms, middle_forms};
ghost use Rattle.i7_sentences.specs.KindsOfValue.{value_itself};
ghost use Rattle.i7_sentences.specs.PhraseForms.{phrase_forms};
ghost use Rattle.i7_sentences.specs.RuleHeads.{rule_forms};
ghost use Rattle.i7_sentences.specs.ValueForms.{value_forms};
ghost use Rattle.language_tables.specs.Printing.{printed_variant};
ghost use Rattle.language_tables.specs.WrittenForms.{written_higher, written_lower, written_middle, written_value_itself, written_values};
ghost use Rattle.language_tables.specs.WrittenPhrases.{written_phrases};
ghost use Rattle.language_tables.specs.WrittenRules.{written_rules};

/// The sentence forms up to what a scene begins or ends on.
#[tactic(auto, unfolding(i7_sentences::specs::Forms::lower_forms, i7_sentences::specs::Keywords::all_keywords))]
pub fn lower_forms_are_as_written()
    ensures { map (map printed_variant) lower_forms ≡ written_lower }
{}

/// Those behind these, up to those that speak of kinds of value.
#[tactic(auto, unfolding(i7_sentences::specs::Forms::middle_forms, i7_sentences::specs::Keywords::all_keywords))]
pub fn middle_forms_are_as_written()
    ensures { map (map printed_variant) middle_forms ≡ written_middle }
{}

/// Those that speak of kinds of value, and what says of value itself that it is a kind.
#[tactic(auto, unfolding(i7_sentences::specs::ValueForms::value_forms, i7_sentences::specs::KindsOfValue::value_itself, i7_sentences::specs::Keywords::all_keywords))]
pub fn value_forms_are_as_written()
    ensures forms { map (λ row. (row.place, printed_variant row.variant)) value_forms ≡ written_values }
    ensures itself { map printed_variant value_itself ≡ written_value_itself }
{}

/// The rest.
#[tactic(auto, unfolding(i7_sentences::specs::Forms::higher_forms, i7_sentences::specs::Keywords::all_keywords))]
pub fn higher_forms_are_as_written()
    ensures { map (map printed_variant) higher_forms ≡ written_higher }
{}

/// The heads of rules.
#[tactic(auto, unfolding(i7_sentences::specs::RuleHeads::rule_forms, i7_sentences::specs::Keywords::all_keywords))]
pub fn rule_forms_are_as_written()
    ensures { map (map printed_variant) rule_forms ≡ written_rules }
{}

/// The phrases.
#[tactic(auto, unfolding(i7_sentences::specs::PhraseForms::phrase_forms, i7_sentences::specs::Keywords::all_keywords))]
pub fn phrase_forms_are_as_written()
    ensures { map (map printed_variant) phrase_forms ≡ written_phrases }
{}
