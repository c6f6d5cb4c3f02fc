//! The marks with which phrases end.
ghost use Rattle.std.specs.Prelude.{◌≡◌};
ghost use Rattle.i7_sentences.specs.PhraseMarks.{is_colon_mark, is_comma_mark, is_no_mark, is_pause, is_semicolon_mark};

/// The mark with which a phrase ends.
#[derive(Clone, Copy, PartialEq, Eq)]
pub enum PhraseMark {
    Semicolon,
    Stop,
    /// What stands on the deeper lines below belongs to the phrase.
    Colon,
    /// The phrase behind it belongs to this one.
    Comma,
    /// None: a text ends it, the body does, or it is an `otherwise` in front of its phrase.
    Nothing,
}

/// Whether there is no mark.
pub fn is_no_mark(mark: PhraseMark) -> bool
    ensures { result ≡ is_no_mark mark }
{
    match mark {
        PhraseMark::Semicolon | PhraseMark::Stop | PhraseMark::Colon | PhraseMark::Comma => false,
        PhraseMark::Nothing => true,
    }
}

/// Whether nothing in front of the mark is no phrase.
pub fn is_pause(mark: PhraseMark) -> bool
    ensures { result ≡ is_pause mark }
{
    match mark {
        PhraseMark::Semicolon | PhraseMark::Stop | PhraseMark::Nothing => true,
        PhraseMark::Colon | PhraseMark::Comma => false,
    }
}

/// Whether the mark is a colon.
pub fn is_colon_mark(mark: PhraseMark) -> bool
    ensures { result ≡ is_colon_mark mark }
{
    match mark {
        PhraseMark::Colon => true,
        _ => false,
    }
}

/// Whether the mark is a comma.
pub fn is_comma_mark(mark: PhraseMark) -> bool
    ensures { result ≡ is_comma_mark mark }
{
    match mark {
        PhraseMark::Comma => true,
        _ => false,
    }
}

/// Whether the mark is a `;`.
pub fn is_semicolon_mark(mark: PhraseMark) -> bool
    ensures { result ≡ is_semicolon_mark mark }
{
    match mark {
        PhraseMark::Semicolon => true,
        _ => false,
    }
}
