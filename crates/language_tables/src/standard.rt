//! The standard rules as an author would write them: what their sentences say are the trees of the rules.
ghost use Rattle.std.specs.Prelude.{◌≡◌, map, option_map};
ghost use Rattle.i7_conditions.specs.Conjoining.{condition_said};
ghost use Rattle.i7_conditions.specs.declared.found.Found.TheVariants.{Read};
ghost use Rattle.i7_phrases.specs.ChangeForms.{now_said};
ghost use Rattle.i7_phrases.specs.SubstitutionForms.{substitution_said};
ghost use Rattle.language_tables.specs.WrittenStandard.{asked_in, first_scope, made_in, said_in, words, written_standard, written_substitutions};
ghost use Rattle.play_meaning.specs.StandardRules.{standard_rules};

/// What each standard rule asks by its `if`.
pub fn standard_rules_ask_as_written()
    ensures { map (λ row. option_map (λ text. condition_said first_scope (words text)) row.0) written_standard ≡ map (λ rule. option_map Read (asked_in rule.body)) standard_rules }
{}

/// What each makes so by its `now`.
pub fn standard_rules_make_so_as_written()
    ensures { map (λ row. option_map (λ text. now_said first_scope (words text)) row.1) written_standard ≡ map (λ rule. option_map Read (made_in rule.body)) standard_rules }
{}

/// What each says by the words between the brackets of its texts.
pub fn standard_rules_tell_as_written()
    ensures { map (map (λ text. substitution_said first_scope (words text))) written_substitutions ≡ map (λ rule. map Read (said_in rule.body)) standard_rules }
{}
