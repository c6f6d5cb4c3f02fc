//! What holds of headings, and of where sentences list rules.
ghost use Rattle.std.specs.Prelude.{List};
ghost use Rattle.std.specs.List.{AllZip};
ghost use Rattle.play_meaning.specs.Rules.{Rule};
ghost use Rattle.rule_order.specs.Books.{AreListedApart};
ghost use Rattle.rule_order.specs.Headings.{IsRuleOf};
ghost use Rattle.rule_order.specs.Listings.{listed_by};
ghost use Rattle.rule_order.specs.declared.heading.Heading.{Heading};
ghost use Rattle.rule_order.specs.declared.listing.ListingSentence.{ListingSentence};

/// However sentences list rules, no sentence lists two.
pub fn rules_are_listed_apart()
    ensures { (sentences : List ListingSentence) (rules : List Rule) → AreListedApart (listed_by sentences rules) }
{}

/// Whatever headings are given, there are rules with them, so that what is said of all such rules is said of some.
pub fn headings_are_of_rules()
    ensures { (headings : List Heading) → (rules : List Rule) × AllZip IsRuleOf headings rules }
{}
