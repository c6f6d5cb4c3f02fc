//! Laws: of a source's texts, of where it lists rules, of its scenes, and of all that is resolved of it, one thing is told.
ghost use Rattle.std.specs.Prelude.{◌≡◌, Bool, List};
ghost use Rattle.i7_rules.specs.Knowns.{Known};
ghost use Rattle.i7_sentences.specs.declared.sentence.Sentence.{Sentence as Said};
ghost use Rattle.i7_resolution.specs.ResolutionsMeant.{resolution_meant};
ghost use Rattle.i7_resolution.specs.Resolutions.{IsResolution};
ghost use Rattle.i7_resolution.specs.SourceListings.{IsListingsFound, listings_meant};
ghost use Rattle.i7_resolution.specs.SourceScenes.{IsScenesFound, scenes_meant};
ghost use Rattle.i7_resolution.specs.SourceTexts.{IsTextsFound, texts_meant};
ghost use Rattle.i7_resolution.specs.declared.resolution.Resolution.{Resolution as Told};
ghost use Rattle.i7_resolution.specs.declared.source_listings.ListingsFound.{ListingsFound as Listed};
ghost use Rattle.i7_resolution.specs.declared.source_scenes.ScenesFound.{ScenesFound as Staged};
ghost use Rattle.i7_resolution.specs.declared.source_texts.TextsFound.{TextsFound as Answer};

use i7_conditions::one_condition_is_meant;
use i7_grammar::one_grammar;
use i7_phrases::one_text_is_meant;
use i7_rules::one_list_of_rules;

/// No sentences have two answers about the texts that describe.
pub fn one_list_of_texts()
    ensures { (k : Known) (sentences : List Said) (a b : Answer) → IsTextsFound k sentences a → IsTextsFound k sentences b → texts_meant a ≡ texts_meant b }
{
    one_text_is_meant();
}

/// No sentences have two answers about where they list rules.
pub fn one_list_of_listings()
    ensures { (k : Known) (sentences : List Said) (a b : Listed) → IsListingsFound k sentences a → IsListingsFound k sentences b → listings_meant a ≡ listings_meant b }
{}

/// No sentences have two answers about when scenes begin and end.
pub fn one_list_of_scenes()
    ensures { (k : Known) (recurring : List Bool) (sentences : List Said) (a b : Staged)
        → IsScenesFound k recurring sentences a → IsScenesFound k recurring sentences b → scenes_meant a ≡ scenes_meant b }
{
    one_condition_is_meant();
}

/// No sentences are resolved in two ways.
pub fn one_resolution()
    ensures { (k : Known) (recurring : List Bool) (sentences : List Said) (a b : Told)
        → IsResolution k recurring sentences a → IsResolution k recurring sentences b → resolution_meant a ≡ resolution_meant b }
{
    one_list_of_rules();
    one_list_of_texts();
    one_list_of_scenes();
    one_grammar();
}
