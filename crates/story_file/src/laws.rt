//! What holds of every source, by the definitions alone.
ghost use Rattle.std.specs.Prelude.{◌≡◌, ◌≢◌, ℕ, List, Ok, Some, map, slice_get};
ghost use Rattle.world_meaning.specs.declared.fault.Fault.{Fault};
ghost use Rattle.world_meaning.specs.declared.fault.FaultCode.TheVariants.{Memory};
ghost use Rattle.world_meaning.specs.declared.tale.Object.{Object};
ghost use Rattle.world_meaning.specs.declared.tale.Tale.{Tale};
ghost use Rattle.i7_claims.specs.Statements.{key_of};
ghost use Rattle.i7_kinds.specs.Tales.{tale_said};
ghost use Rattle.i7_names.specs.Numbering.{numbering_of};
ghost use Rattle.i7_sentences.specs.declared.sentence.Sentence.{Sentence};
ghost use Rattle.story_format.specs.Contents.{Contents};
ghost use Rattle.story_format.specs.Holding.{AreOf, IsHeld};
ghost use Rattle.story_format.specs.Making.{text_of};
ghost use Rattle.story_file.specs.ActionNumbers.{NounsAgree, StandardNamesAgree};
ghost use Rattle.story_file.specs.Compilations.{IsCompiled, IsRefused, Means};
ghost use Rattle.story_file.specs.Lines.{rule_lines};
ghost use Rattle.story_file.specs.Meanings.{AreMeant, scope_said};
ghost use Rattle.story_file.specs.Texts.{HasTextSaid};

use i7_phrases::one_text_is_meant;
use i7_resolution::one_resolution;
use story_format::never_held_and_not;

/// No source means two tales, or says two things of one.
pub fn one_tale()
    ensures { (source : List ℕ) (tale other : Tale) (said others : Contents) → Means source tale said → Means source other others → (tale ≡ other) × (said ≡ others) }
{
    one_text_is_meant();
    one_resolution();
}

/// A story file holds each tale that a source means, and what is said of it is of that tale: `write` may be called with them.
pub fn meant_tales_are_held()
    ensures held { (source : List ℕ) (tale : Tale) (said : Contents) → Means source tale said → IsHeld tale }
    ensures of_tale { (source : List ℕ) (tale : Tale) (said : Contents) → Means source tale said → AreOf tale said }
{}

/// Rules number the actions as play and table 8 do: each standard one by its name, and each, the author's too, by how many nouns
/// it asks for.
pub fn actions_are_numbered_alike()
    ensures names { StandardNamesAgree }
    ensures nouns { NounsAgree }
{}

/// No source has a story file and is refused, memory aside.
pub fn never_compiled_and_refused()
    ensures { (source bytes : List ℕ) (fault : Fault) → fault.code ≢ Memory → IsCompiled source bytes → IsRefused source fault → ⊥ }
{
    one_text_is_meant();
    one_resolution();
    never_held_and_not();
}

/// No source is refused in two ways, memory aside.
pub fn one_refusal()
    ensures { (source : List ℕ) (fault other : Fault) → IsRefused source fault → IsRefused source other → fault.code ≢ Memory → other.code ≢ Memory → fault ≡ other }
{
    one_text_is_meant();
    one_resolution();
}

/// The objects of a tale that sentences mean have the names by which rules and texts number them, in this order.
pub fn objects_are_numbered_by_name()
    ensures { (sentences : List Sentence) (tale : Tale) → tale_said sentences ≡ Ok tale
        → map (λ object. key_of object.name) tale.objects ≡ (numbering_of sentences).objects }
{}

/// The rules that sentences say stand at the lines of their sentences.
pub fn rules_stand_at_their_lines()
    ensures { (sentences : List Sentence) (tale : Tale) (said : Contents) (meant : AreMeant sentences tale said)
        → map (λ rule. rule.line) meant.resolved.rules.items ≡ rule_lines sentences }
{}

/// The text that a story has for an object is what the object's description says.
pub fn objects_have_their_texts()
    ensures { (sentences : List Sentence) (tale : Tale) (said : Contents) (n : ℕ) (object : Object) (bytes : List ℕ) → AreMeant sentences tale said
        → slice_get tale.objects n ≡ Some object → object.description ≡ Some bytes → HasTextSaid (scope_said sentences) bytes (text_of tale said.texts n) }
{}
