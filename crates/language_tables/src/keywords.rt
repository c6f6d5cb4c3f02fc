//! The words and marks that forms, names, conditions and texts know.
ghost use Rattle.std.specs.Prelude.{◌≡◌, [], ◌∷◌, map};
ghost use Rattle.i7_sentences.specs.Keywords.{all_keywords};
ghost use Rattle.i7_sentences.specs.declared.condition.TheConstants.{IN_DARKNESS, JOINTS, NOT_IN_DARKNESS, VERBS};
ghost use Rattle.i7_sentences.specs.declared.keyword.TheConstants.{ARTICLES, RESERVED};
ghost use Rattle.i7_sentences.specs.declared.text_reader.TheConstants.{APOSTROPHE, END_IF, IF, LINE_BREAK, OTHERWISE, PARAGRAPH_BREAK};
ghost use Rattle.language_tables.specs.WrittenKeywords.{written_articles, written_keywords, written_reserved};
ghost use Rattle.language_tables.specs.WrittenNames.{written_darkness, written_if, written_joints, written_pieces, written_verbs};

/// The keywords with their spellings.
#[tactic(auto, unfolding(i7_sentences::specs::Keywords::all_keywords))]
pub fn keywords_are_as_written()
    ensures { map (map (λ row. (row.spelling, row.keyword))) all_keywords ≡ written_keywords }
{}

/// The articles, and the other words that no name of an object may hold.
pub fn reserved_words_are_as_written()
    ensures articles { ARTICLES ≡ written_articles }
    ensures others { RESERVED ≡ written_reserved }
{}

/// The words that join conditions, those that say something of a thing, and darkness.
pub fn condition_words_are_as_written()
    ensures joints { map (λ word. word.now) JOINTS ≡ written_joints }
    ensures verbs { map (λ word. word.now) VERBS ≡ written_verbs }
    ensures darkness { map (λ word. word.now) IN_DARKNESS ∷ map (λ word. word.now) NOT_IN_DARKNESS ∷ [] ≡ written_darkness }
{}

/// The pieces of a text that are no value: an apostrophe, the two breaks, `otherwise`, `end if`, and what begins with `if`.
pub fn text_words_are_as_written()
    ensures pieces { map (map (λ word. word.now)) (APOSTROPHE ∷ LINE_BREAK ∷ PARAGRAPH_BREAK ∷ OTHERWISE ∷ END_IF ∷ []) ≡ written_pieces }
    ensures begins { IF.now ≡ written_if }
{}
