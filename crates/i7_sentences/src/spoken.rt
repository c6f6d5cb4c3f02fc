//! What a phrase of a rule's body says, its words not yet resolved.
use crate::{TextPieces, WordList};
use world_meaning::TextBytes;

/// What a phrase says. Words are as written; those of a rulebook and of a loop's name are without the free
/// article in front.
#[derive(Drop)]
pub enum Spoken {
    /// A text that is said, with how many bytes it has as it is written, brackets and all.
    Say { text: TextPieces, length: usize },
    /// All that stands behind `now`: `now the ball is in the box`, `now Bob carries the ball`. Names tell where it is cut.
    Now(WordList),
    /// All that stands behind `move`: `move the ball to the box`.
    Move(WordList),
    Increase { value: WordList, amount: WordList },
    Decrease { value: WordList, amount: WordList },
    /// `try taking the ball`, perhaps behind `silently`
    Try { is_silent: bool, action: WordList },
    /// `follow the cleanup rules`
    Follow(WordList),
    RuleSucceeds,
    RuleFails,
    MakeNoDecision,
    ContinueAction,
    StopAction,
    /// With what is printed in place of the usual closing words, if the phrase says it; `finally` changes
    /// nothing.
    EndStory(Option<TextBytes>),
    /// The phrases behind it that are one deeper are done if the condition of these words holds.
    If(WordList),
    /// The same where no condition held before, of an `if` as deep as this.
    OtherwiseIf(WordList),
    /// The phrases behind it that are one deeper are done if none held.
    Otherwise,
    /// The phrases behind it that are one deeper are done with the name for each object that the words
    /// describe.
    Repeat { name: WordList, through: WordList },
}
