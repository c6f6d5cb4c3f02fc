//! Laws: of a rule one thing is told, and of a source's rules too; and what a head asks for is there.
ghost use Rattle.std.specs.Prelude.{◌≡◌, ℕ, List, length};
ghost use Rattle.i7_conditions.specs.There.{AreThere, Counts};
ghost use Rattle.i7_patterns.specs.There.{AsksWhatIs};
ghost use Rattle.i7_rules.specs.Heads.{Head, IsWithin};
ghost use Rattle.i7_rules.specs.Knowns.{Known};
ghost use Rattle.i7_rules.specs.Rules.{IsRuleFound, fault_in};
ghost use Rattle.i7_rules.specs.RulesMeant.{rules_meant};
ghost use Rattle.i7_rules.specs.SourceRules.{IsRulesFound};
ghost use Rattle.i7_rules.specs.declared.rule.RuleFound.{RuleFound as Told};
ghost use Rattle.i7_rules.specs.declared.source_rules.RulesFound.{RulesFound as Answer};
ghost use Rattle.i7_sentences.specs.declared.rule.Rule.{Rule};
ghost use Rattle.i7_sentences.specs.declared.sentence.Sentence.{Sentence as Said};

use i7_actions::{one_action_is_tried, one_book_is_followed};
use i7_conditions::one_body_is_nested;
use i7_patterns::{one_pattern_is_meant, one_place_is_meant};
use i7_phrases::{one_block_is_opened, one_change_is_made, one_text_is_meant};

/// A rule says something, or one thing is wrong with it at one line.
pub fn one_rule_is_told()
    ensures { (k : Known) (line : ℕ) (rule : Rule) (a b : Told) → IsRuleFound k line rule a → IsRuleFound k line rule b → fault_in line a ≡ fault_in line b }
{
    one_text_is_meant();
    one_change_is_made();
    one_block_is_opened();
    one_action_is_tried();
    one_book_is_followed();
    one_pattern_is_meant();
    one_place_is_meant();
}

/// No sentences have two answers about their rules.
pub fn one_list_of_rules()
    ensures { (k : Known) (sentences : List Said) (a b : Answer) → IsRulesFound k sentences a → IsRulesFound k sentences b → rules_meant a ≡ rules_meant b }
{
    one_text_is_meant();
    one_change_is_made();
    one_block_is_opened();
    one_action_is_tried();
    one_book_is_followed();
    one_pattern_is_meant();
    one_place_is_meant();
    one_body_is_nested();
}

/// Where what names stand for is there, so is what a head within its limits is about.
pub fn heads_ask_what_is()
    ensures { (k : Known) (z : Counts) (rule : Rule) (head : Head) → AreThere z k.meanings k.plurals → IsWithin k rule head → AsksWhatIs z (length k.actions) head.about }
{}
