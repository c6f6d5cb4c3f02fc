//! What holds of texts of a source as they are written in a page.
ghost use Rattle.std.specs.Prelude.{◌≡◌, ℕ, List, false};
ghost use Rattle.std.specs.List.{list_any};
ghost use Rattle.story_index.specs.Escapes.{IsReadAs, is_of_markup, shown_text};

/// No byte of one opens or closes a tag, or an attribute's value.
#[tactic(auto, using(crate::proofs::Escaping::no_markup))]
pub fn shown_texts_are_no_markup()
    ensures { (text : List ℕ) → list_any is_of_markup (shown_text text) ≡ false }
{}

/// A reader of the page shows just the text.
#[tactic(auto, using(crate::proofs::Escaping::read_back))]
pub fn shown_texts_are_read_back()
    ensures { (text : List ℕ) → IsReadAs (shown_text text) text }
{}
