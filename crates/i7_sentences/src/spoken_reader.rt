//! Reading a phrase: what it says with the words for the letters of its form.
ghost use Rattle.std.specs.Prelude.{◌≡◌, Some, None, map, option_map, IfOk};
ghost use Rattle.i7_sentences.specs.Found.{found_in};
ghost use Rattle.i7_sentences.specs.SpokenPhrases.{decrease_of, end_story_of, ending_with, follow_of, if_condition, if_of, if_read, increase_of, move_of, now_of, otherwise_condition, otherwise_if_of, pieces_said, repeat_of, say_of, text_said, spoken_by, spoken_found, spoken_in, spoken_of, spoken_with, try_of};

use crate::condition::{are_pieces_read, is_condition};
use crate::letter::plain_text;
use crate::phrase_form::{is_phrase_form, phrase_reading};
use crate::reading::Reading;
use crate::tagged::{Tagged, with_tags};
use crate::text_reader::{printed, read_text};
use crate::word_list::{named_in, words_in};
use crate::{PhraseForm, Spoken, TextPieces, WordList};
use i7_lexer::{PackedToken, TokenKind};
use std::alloc::{AllocError, Global};
use world_meaning::TextBytes;

/// A phrase that is understood: its form, and what it says.
#[derive(Drop)]
pub struct SpokenPhrase {
    pub form: PhraseForm,
    pub said: Spoken,
}

/// The pieces, if there are any and their ifs have conditions.
fn if_read(pieces: Option<TextPieces>) -> Option<TextPieces>
    ensures { result ≡ if_read pieces }
{
    match pieces {
        None => None,
        Some(pieces) => if are_pieces_read(pieces.as_slice()) {
            Some(pieces)
        } else {
            None
        },
    }
}

/// A text of this length that is said, if its pieces are understood.
fn pieces_said(length: usize, pieces: Option<TextPieces>) -> Option<Spoken>
    ensures { result ≡ pieces_said length pieces }
{
    match pieces {
        None => None,
        Some(text) => Some(Spoken::Say { text, length }),
    }
}

/// A text that is said.
fn text_said(alloc: Global, token: &PackedToken) -> Result<Option<Spoken>, AllocError>
    ensures { IfOk result (λ said. said ≡ text_said token.now.kind) }
{
    match token.kind() {
        TokenKind::Text(text) => {
            let pieces = if_read(read_text(alloc, text.as_slice())?);
            Ok(pieces_said(text.as_slice().len(), pieces))
        }
        TokenKind::Word(_) | TokenKind::Mark(_) => Ok(None),
    }
}

fn say_of(alloc: Global, letters: &[&[Tagged<'_>]]) -> Result<Option<Spoken>, AllocError>
    ensures { IfOk result (λ said. said ≡ say_of (map (λ letter. letter.now) letters.now)) }
{
    match letters {
        [letter] => match letter {
            [token] => text_said(alloc, token.token()),
            _ => Ok(None),
        },
        _ => Ok(None),
    }
}

fn now_of(alloc: Global, tokens: &[Tagged<'_>]) -> Result<Option<Spoken>, AllocError>
    ensures { IfOk result (λ said. said ≡ now_of tokens.now) }
{
    match tokens {
        [] => Ok(None),
        [_, behind @ ..] => Ok(Some(Spoken::Now(words_in(alloc, behind)?))),
    }
}

fn move_of(alloc: Global, tokens: &[Tagged<'_>]) -> Result<Option<Spoken>, AllocError>
    ensures { IfOk result (λ said. said ≡ move_of tokens.now) }
{
    match tokens {
        [] => Ok(None),
        [_, behind @ ..] => Ok(Some(Spoken::Move(words_in(alloc, behind)?))),
    }
}

fn increase_of(alloc: Global, letters: &[&[Tagged<'_>]]) -> Result<Option<Spoken>, AllocError>
    ensures { IfOk result (λ said. said ≡ increase_of (map (λ letter. letter.now) letters.now)) }
{
    match letters {
        [value, amount] => Ok(Some(Spoken::Increase {
            value: words_in(alloc, value)?,
            amount: words_in(alloc, amount)?,
        })),
        _ => Ok(None),
    }
}

fn decrease_of(alloc: Global, letters: &[&[Tagged<'_>]]) -> Result<Option<Spoken>, AllocError>
    ensures { IfOk result (λ said. said ≡ decrease_of (map (λ letter. letter.now) letters.now)) }
{
    match letters {
        [value, amount] => Ok(Some(Spoken::Decrease {
            value: words_in(alloc, value)?,
            amount: words_in(alloc, amount)?,
        })),
        _ => Ok(None),
    }
}

fn try_of(
    alloc: Global,
    is_silent: bool,
    letters: &[&[Tagged<'_>]],
) -> Result<Option<Spoken>, AllocError>
    ensures { IfOk result (λ said. said ≡ try_of is_silent (map (λ letter. letter.now) letters.now)) }
{
    match letters {
        [action] => Ok(Some(Spoken::Try {
            is_silent,
            action: words_in(alloc, action)?,
        })),
        _ => Ok(None),
    }
}

fn follow_of(alloc: Global, letters: &[&[Tagged<'_>]]) -> Result<Option<Spoken>, AllocError>
    ensures { IfOk result (λ said. said ≡ follow_of (map (λ letter. letter.now) letters.now)) }
{
    match letters {
        [book] => Ok(Some(Spoken::Follow(named_in(alloc, book)?))),
        _ => Ok(None),
    }
}

/// The end of the story with this closing text, if there is one.
fn ending_with(alloc: Global, text: Option<TextBytes>) -> Result<Option<Spoken>, AllocError>
    ensures { IfOk result (λ said. said ≡ ending_with text) }
{
    match text {
        None => Ok(None),
        Some(text) => Ok(Some(Spoken::EndStory(Some(printed(alloc, text.as_slice())?)))),
    }
}

fn end_story_of(alloc: Global, letters: &[&[Tagged<'_>]]) -> Result<Option<Spoken>, AllocError>
    ensures { IfOk result (λ said. said ≡ end_story_of (map (λ letter. letter.now) letters.now)) }
{
    match letters {
        [text] => Ok(ending_with(alloc, plain_text(alloc, text)?)?),
        _ => Ok(None),
    }
}

fn if_condition(words: WordList) -> Option<Spoken>
    ensures { result ≡ if_condition words }
{
    if is_condition(words.as_slice()) {
        Some(Spoken::If(words))
    } else {
        None
    }
}

fn if_of(alloc: Global, letters: &[&[Tagged<'_>]]) -> Result<Option<Spoken>, AllocError>
    ensures { IfOk result (λ said. said ≡ if_of (map (λ letter. letter.now) letters.now)) }
{
    match letters {
        [condition] => Ok(if_condition(words_in(alloc, condition)?)),
        _ => Ok(None),
    }
}

fn otherwise_condition(words: WordList) -> Option<Spoken>
    ensures { result ≡ otherwise_condition words }
{
    if is_condition(words.as_slice()) {
        Some(Spoken::OtherwiseIf(words))
    } else {
        None
    }
}

fn otherwise_if_of(alloc: Global, letters: &[&[Tagged<'_>]]) -> Result<Option<Spoken>, AllocError>
    ensures { IfOk result (λ said. said ≡ otherwise_if_of (map (λ letter. letter.now) letters.now)) }
{
    match letters {
        [condition] => Ok(otherwise_condition(words_in(alloc, condition)?)),
        _ => Ok(None),
    }
}

fn repeat_of(alloc: Global, letters: &[&[Tagged<'_>]]) -> Result<Option<Spoken>, AllocError>
    ensures { IfOk result (λ said. said ≡ repeat_of (map (λ letter. letter.now) letters.now)) }
{
    match letters {
        [name, through] => Ok(Some(Spoken::Repeat {
            name: named_in(alloc, name)?,
            through: words_in(alloc, through)?,
        })),
        _ => Ok(None),
    }
}

/// What a phrase of these tokens and this form says with these letters, if it is understood.
#[tactic(auto, unfolding(crate::specs::SpokenPhrases::spoken_of))]
fn spoken_of(
    alloc: Global,
    form: PhraseForm,
    tokens: &[Tagged<'_>],
    letters: &[&[Tagged<'_>]],
) -> Result<Option<Spoken>, AllocError>
    ensures { IfOk result (λ said. said ≡ spoken_of form tokens.now (map (λ letter. letter.now) letters.now)) }
{
    match form {
        PhraseForm::Say => Ok(say_of(alloc, letters)?),
        PhraseForm::Now => Ok(now_of(alloc, tokens)?),
        PhraseForm::Move => Ok(move_of(alloc, tokens)?),
        PhraseForm::Increase => Ok(increase_of(alloc, letters)?),
        PhraseForm::Decrease => Ok(decrease_of(alloc, letters)?),
        PhraseForm::Try => Ok(try_of(alloc, false, letters)?),
        PhraseForm::TrySilently => Ok(try_of(alloc, true, letters)?),
        PhraseForm::Follow => Ok(follow_of(alloc, letters)?),
        PhraseForm::RuleSucceeds => Ok(Some(Spoken::RuleSucceeds)),
        PhraseForm::RuleFails => Ok(Some(Spoken::RuleFails)),
        PhraseForm::MakeNoDecision => Ok(Some(Spoken::MakeNoDecision)),
        PhraseForm::ContinueAction => Ok(Some(Spoken::ContinueAction)),
        PhraseForm::StopAction => Ok(Some(Spoken::StopAction)),
        PhraseForm::EndStory | PhraseForm::EndStoryFinally => Ok(Some(Spoken::EndStory(None))),
        PhraseForm::EndStorySaying => Ok(end_story_of(alloc, letters)?),
        PhraseForm::If => Ok(if_of(alloc, letters)?),
        PhraseForm::OtherwiseIf => Ok(otherwise_if_of(alloc, letters)?),
        PhraseForm::Otherwise => Ok(Some(Spoken::Otherwise)),
        PhraseForm::Repeat => Ok(repeat_of(alloc, letters)?),
    }
}

fn spoken_with(form: PhraseForm, said: Option<Spoken>) -> Option<SpokenPhrase>
    ensures { result ≡ spoken_with form said }
{
    match said {
        None => None,
        Some(said) => Some(SpokenPhrase { form, said }),
    }
}

/// What the letters say, if the form is one of a phrase.
fn spoken_by(
    alloc: Global,
    form: Option<PhraseForm>,
    tokens: &[Tagged<'_>],
    letters: &[&[Tagged<'_>]],
) -> Result<Option<SpokenPhrase>, AllocError>
    ensures { IfOk result (λ said. said ≡ spoken_by form tokens.now (map (λ letter. letter.now) letters.now)) }
{
    match form {
        None => Ok(None),
        Some(form) => Ok(spoken_with(form, spoken_of(alloc, form, tokens, letters)?)),
    }
}

/// What a reading says of a phrase of these tokens.
fn spoken_found(
    alloc: Global,
    tokens: &[Tagged<'_>],
    reading: Option<Reading<'_, '_>>,
) -> Result<Option<SpokenPhrase>, AllocError>
    ensures { IfOk result (λ said. said ≡ spoken_found tokens.now (option_map found_in reading.entry)) }
{
    match reading {
        None => Ok(None),
        Some(found) => Ok(spoken_by(
            alloc,
            is_phrase_form(found.form),
            tokens,
            found.letters.as_slice(),
        )?),
    }
}

/// What a phrase says, without its mark and a closing `instead`; none where it isn't understood.
#[tactic(auto, unfolding(crate::specs::SpokenPhrases::spoken_in))]
pub fn spoken_in(alloc: Global, tokens: &[PackedToken]) -> Result<Option<SpokenPhrase>, AllocError>
    ensures { IfOk result (λ said. said ≡ spoken_in tokens.now) }
{
    let words = with_tags(alloc, tokens)?;
    let reading = phrase_reading(alloc, words.as_slice())?;
    Ok(spoken_found(alloc, words.as_slice(), reading)?)
}
