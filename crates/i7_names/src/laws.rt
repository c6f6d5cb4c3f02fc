//! Laws: what the names of a source stand for, by what is claimed of them, and that it is there.
ghost use Rattle.std.specs.Prelude.{◌≡◌, List, None};
ghost use Rattle.i7_sentences.specs.declared.sentence.Sentence.{Sentence};
ghost use Rattle.i7_claims.specs.Claims.{claims_of};
ghost use Rattle.i7_claims.specs.NameScans.{name_twice};
ghost use Rattle.i7_conditions.specs.There.{AreNamesThere, ArePluralsThere};
ghost use Rattle.i7_names.specs.Claimed.{AreAsClaimed, claimed_in};
ghost use Rattle.i7_names.specs.Numbering.{numbering_of};
ghost use Rattle.i7_names.specs.SourceNames.{names_in};
ghost use Rattle.i7_names.specs.There.{counts_in};

/// Where no name stands for two things (C9), each stands for what any sentence claims of it, or what it is before any
/// sentence, and other names stand for nothing.
pub fn names_stand_for_what_is_claimed()
    ensures { (sentences : List Sentence) → name_twice (claims_of sentences) ≡ None → AreAsClaimed (numbering_of sentences) (claimed_in sentences) (names_in sentences).meanings }
{}

/// What the names and plurals of a source stand for is there: it is one of its objects, kinds, properties, variables,
/// scenes, kinds of value with values, or values.
pub fn names_stand_for_what_is()
    ensures names { (sentences : List Sentence) → AreNamesThere (counts_in sentences) (names_in sentences).meanings }
    ensures plurals { (sentences : List Sentence) → ArePluralsThere (counts_in sentences) (names_in sentences).plurals }
{}
