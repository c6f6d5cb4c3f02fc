//! Laws of the definitions that the reader is proved against.
ghost use Rattle.std.specs.Prelude.{◌≡◌, ◌≢◌, ◌⊎◌, Bool, List, None, Some};
ghost use Rattle.i7_lexer.specs.Rising.{LinesRise};
ghost use Rattle.i7_lexer.specs.declared.token.Token.{Token};
ghost use Rattle.i7_sentences.specs.Cuts.{Piece, cut};
ghost use Rattle.i7_sentences.specs.DeclaredKinds.{AreKinds};
ghost use Rattle.i7_sentences.specs.Forms.{IsReading, IsUnread, Variant};
ghost use Rattle.i7_sentences.specs.HeadWords.{IsParted, behind_first, in_front_of};
ghost use Rattle.i7_sentences.specs.KindsOfValue.{kinds_of_value};
ghost use Rattle.i7_sentences.specs.Matching.{Found, lowest_fit};
ghost use Rattle.i7_sentences.specs.Names.{Words};
ghost use Rattle.i7_sentences.specs.Seams.{IsCut, IsOnlyCut};
ghost use Rattle.i7_sentences.specs.Sources.{HasSentences, IsRefused, IsSpeaking};
ghost use Rattle.i7_sentences.specs.Understood.{IsUnderstoodBy, understood_by};
ghost use Rattle.i7_sentences.specs.ValueFits.{read_with};
ghost use Rattle.i7_sentences.specs.ValueForms.{IsReadWith, IsUnreadWith};
ghost use Rattle.i7_sentences.specs.declared.keyword.Keyword.{Keyword};
ghost use Rattle.i7_sentences.specs.declared.sentence.Sentence.{Sentence};
ghost use Rattle.world_meaning.specs.declared.fault.Fault.{Fault};
ghost use Rattle.world_meaning.specs.declared.fault.FaultCode.TheVariants.{Memory};

/// The cut of tokens is made between two neighbours that don't belong to the same piece, and nowhere
/// else, and there is no other such cut, whatever opens a piece and whatever belongs to one.
pub fn cut_is_exact()
    ensures made { (opens : Token → Bool) (same : Bool → Token → Token → Bool) (tokens : List Token) → IsCut opens same tokens (cut opens same tokens) }
    ensures alone { (opens : Token → Bool) (same : Bool → Token → Token → Bool) (tokens : List Token) → IsOnlyCut opens same tokens (cut opens same tokens) }
{}

/// The words of a head are parted at the first word, `when` or `during`, that is looked for, and left whole where none is.
pub fn heads_are_parted_at_the_first()
    ensures { (keyword : Keyword) (words : List Token) → IsParted keyword words (in_front_of keyword words) (behind_first keyword words) }
{}

/// No words have two readings, whatever the forms and whatever kinds of value are declared.
pub fn one_reading()
    ensures with_kinds { (kinds : List Words) (words : List Token) (v w : Variant) (a b : List (List Token)) → IsReadWith kinds words v a → IsReadWith kinds words w b → (v ≡ w) × (a ≡ b) }
    ensures forms { (forms : List (List Variant)) (words : List Token) (v w : Variant) (a b : List (List Token)) → IsReading forms words v a → IsReading forms words w b → (v ≡ w) × (a ≡ b) }
{}

/// All words have a reading or are unread, and none both, whatever the forms.
pub fn read_or_unread()
    ensures with_kinds { (kinds : List Words) (words : List Token) → ((v : Variant) × (letters : List (List Token)) × IsReadWith kinds words v letters) ⊎ IsUnreadWith kinds words }
    ensures not_both { (kinds : List Words) (words : List Token) (v : Variant) (letters : List (List Token)) → IsReadWith kinds words v letters → IsUnreadWith kinds words → ⊥ }
    ensures one { (forms : List (List Variant)) (words : List Token) → ((v : Variant) × (letters : List (List Token)) × IsReading forms words v letters) ⊎ IsUnread forms words }
    ensures never_both { (forms : List (List Variant)) (words : List Token) (v : Variant) (letters : List (List Token)) → IsReading forms words v letters → IsUnread forms words → ⊥ }
{}

/// No sentence is understood in two ways, nor in one that no form reads, and what the definitions find is how it is understood.
pub fn one_understanding()
    ensures one { (kinds : List Words) (words : List Token) (v w : Variant) (a b : List (List Token)) → IsUnderstoodBy kinds words v a → IsUnderstoodBy kinds words w b → (v ≡ w) × (a ≡ b) }
    ensures not_both { (kinds : List Words) (words : List Token) (v : Variant) (letters : List (List Token)) → IsUnderstoodBy kinds words v letters → IsUnreadWith kinds words → ⊥ }
    ensures some { (kinds : List Words) (words : List Token) (found : Found) → understood_by kinds words ≡ Some found → IsUnderstoodBy kinds words found.variant found.letters }
    ensures none { (kinds : List Words) (words : List Token) → understood_by kinds words ≡ None → IsUnreadWith kinds words }
{}

/// What the definitions find from left to right is the reading, whatever the forms, and where they find
/// nothing the words are unread: so it is for the heads of rules and for phrases too.
pub fn found_is_read()
    ensures with_kinds { (kinds : List Words) (words : List Token) (found : Found) → read_with kinds words ≡ Some found → IsReadWith kinds words found.variant found.letters }
    ensures some { (forms : List (List Variant)) (words : List Token) (found : Found) → lowest_fit forms words ≡ Some found → IsReading forms words found.variant found.letters }
    ensures none { (forms : List (List Variant)) (words : List Token) → lowest_fit forms words ≡ None → IsUnread forms words }
{}

/// No tokens spell two lists of sentences.
pub fn one_list_of_sentences()
    ensures { (tokens : List Token) (v w : List Sentence) → HasSentences tokens v → HasSentences tokens w → v ≡ w }
{}

/// No tokens are refused in two ways, memory aside.
pub fn one_refusal()
    ensures { (tokens : List Token) (f g : Fault) → IsRefused tokens f → IsRefused tokens g → f.code ≢ Memory → g.code ≢ Memory → f ≡ g }
{}

/// All tokens spell sentences or are refused for another reason than memory, and none both.
pub fn spelled_or_refused()
    ensures one { (tokens : List Token) → ((sentences : List Sentence) × HasSentences tokens sentences) ⊎ ((fault : Fault) × (fault.code ≢ Memory) × IsRefused tokens fault) }
    ensures never_both { (tokens : List Token) (sentences : List Sentence) (fault : Fault) → HasSentences tokens sentences → fault.code ≢ Memory → IsRefused tokens fault → ⊥ }
{}

/// A form that is no rule's, no `Understand`, and tells no scene's beginning or end, says something wherever a part is understood by
/// it, so that the part is a sentence or has a reserved word in a name, but for a text that may not describe.
pub fn forms_that_fit_speak()
    ensures { (kinds : List Words) (part : Piece) (variant : Variant) (letters : List (List Token)) → IsUnderstoodBy kinds part.tokens variant letters → IsSpeaking kinds variant part }
{}

/// The lines of sentences rise where those of their tokens do.
pub fn sentence_lines_rise()
    ensures { (tokens : List Token) (sentences : List Sentence) → LinesRise (λ t. t.line) tokens → HasSentences tokens sentences → LinesRise (λ s. s.line) sentences }
{}

/// The kinds of value of a source are those that its sentences declare which no middle form reads, in order; there are none where a
/// sentence says of value itself that it is a kind.
pub fn kinds_of_value_are_declared()
    ensures { (parts : List Piece) → AreKinds parts (kinds_of_value parts) }
{}
