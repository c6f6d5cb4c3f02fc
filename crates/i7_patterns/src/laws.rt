//! Laws: words are one pattern at most, and what they ask for is there.
ghost use Rattle.std.specs.Prelude.{◌≡◌, false, List, length, true};
ghost use Rattle.i7_actions.specs.declared.action.Action.{Action as Row};
ghost use Rattle.i7_conditions.specs.Scopes.{Scope as Names};
ghost use Rattle.i7_conditions.specs.There.{AreThere, Counts};
ghost use Rattle.i7_conditions.specs.Words.{Word};
ghost use Rattle.i7_patterns.specs.Aspects.{AsksOne};
ghost use Rattle.i7_patterns.specs.Patterns.{IsPattern, pattern_asks_value, pattern_is_over};
ghost use Rattle.i7_patterns.specs.Places.{asks_value, is_long};
ghost use Rattle.i7_patterns.specs.There.{AsksWhatIs, is_aspect_of};
ghost use Rattle.play_meaning.specs.Patterns.{Pattern as Meant};
ghost use Rattle.play_meaning.specs.Rules.{Aspect as Meaning};

/// Words are one pattern at most.
pub fn one_pattern_is_meant()
    ensures { (actions : List Row) (s : Names) (words : List Word) (p q : Meant) → IsPattern actions s words p → IsPattern actions s words q → p ≡ q }
{}

/// Words are one place at most.
pub fn one_place_is_meant()
    ensures { (s : Names) (words : List Word) (x y : Meaning) → AsksOne s words x → AsksOne s words y → x ≡ y }
{}

/// Where what names stand for is there, so is what a pattern within its limits asks for, if that is no value.
pub fn patterns_ask_what_is()
    ensures { (z : Counts) (actions : List Row) (s : Names) (words : List Word) (p : Meant) → AreThere z s.meanings s.plurals → IsPattern actions s words p
        → pattern_is_over p ≡ false → pattern_asks_value p ≡ false → AsksWhatIs z (length actions) p }
{}

/// And so is a place.
pub fn places_are_there()
    ensures { (z : Counts) (s : Names) (words : List Word) (x : Meaning) → AreThere z s.meanings s.plurals → AsksOne s words x → is_long x ≡ false → asks_value x ≡ false → is_aspect_of z x ≡ true }
{}
