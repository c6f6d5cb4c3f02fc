//! What few words say fits a story.
ghost use Rattle.story_code.specs.ShortRows.{ShortRows};
ghost use Rattle.story_code.specs.ShortLaws.{IsJoinedSo, ShortBodiesFit, ShortConditionsFit, ShortDescriptionsFit};

/// A body, a condition or a description that at most 500 words say, those between its texts' brackets counted, fits a story
/// in which what it names is there, if it keeps the limits of the language and joins at most 32 numbers in an expression.
/// It names no more tests than words, and bytes can say what is emitted of it, if two tell these tests by their numbers. So
/// `TooLong` is no answer of `body_codes`, `condition_codes` and `description_codes` to it, as their clauses `short` say.
pub fn what_is_short_fits()
    ensures bodies { ShortBodiesFit }
    ensures conditions { ShortConditionsFit }
    ensures descriptions { ShortDescriptionsFit }
{}

/// Whatever a condition's words mean, no more than two of its truths wait for another at once, and no adjective is denied
/// twice: so the limits hold of each condition and description that is read from words, if its parts are there, no more
/// than 8 `from`s stand within one another, no more than 9 adjectives stand in a row, and no more than 32 numbers are
/// joined.
pub fn what_words_mean_is_joined_so()
    ensures { IsJoinedSo }
{}

/// How many words some trees are said by, and what is short in a small story.
pub fn rows_of_what_is_short()
    ensures { ShortRows }
{}
