//! The forms of phrases as data, in the table of which the first that fits is meant.
ghost use Rattle.std.specs.Prelude.{◌≡◌, option_map, IfOk};
ghost use Rattle.i7_sentences.specs.Found.{found_in};
ghost use Rattle.i7_sentences.specs.Matching.{lowest_fit};
ghost use Rattle.i7_sentences.specs.PhraseForms.{is_phrase_form, phrase_forms, shape_found, shape_in};

use crate::column_stack::ColumnStack;
use crate::form::Piece::{Letter, Word};
use crate::reading::{Reading, lowest_fit};
use crate::reserved::has_reserved_among;
use crate::signs::signs_of;
use crate::tagged::{Tagged, with_tags};
use crate::{Class, Form, FormRow, Keyword, Piece};
use i7_lexer::PackedToken;
use std::alloc::{AllocError, Global};

/// What a phrase is, by its shape.
#[derive(Clone, Copy, PartialEq, Eq)]
pub enum PhraseForm {
    Say,
    /// With `is` or `are`, `carries` or `wears` behind it.
    Now,
    Move,
    Increase,
    Decrease,
    Try,
    TrySilently,
    Follow,
    RuleSucceeds,
    RuleFails,
    MakeNoDecision,
    ContinueAction,
    StopAction,
    EndStory,
    EndStoryFinally,
    EndStorySaying,
    If,
    OtherwiseIf,
    Otherwise,
    Repeat,
}

/// A phrase's form, and whether a name in it holds a reserved word.
#[derive(Clone, Copy, PartialEq, Eq)]
pub struct PhraseShape {
    pub form: PhraseForm,
    pub has_reserved_name: bool,
}

const WORDS: Piece = Letter(Class::Words);

const TEXT: Piece = Letter(Class::Text);

const NOW: Piece = Word(Keyword::Now);

const RULE: Piece = Word(Keyword::Rule);

const THE: Piece = Word(Keyword::The);

const ACTION: Piece = Word(Keyword::Action);

const END: Piece = Word(Keyword::End);

const STORY: Piece = Word(Keyword::Story);

const BY: Piece = Word(Keyword::By);

const IF: Piece = Word(Keyword::If);

const OTHERWISE: Piece = Word(Keyword::Otherwise);

/// The forms of phrases.
pub const PHRASE_FORMS: [FormRow; 20] = [
    (
        Some(Keyword::Say),
        &[(Form::Phrase(PhraseForm::Say), &[Word(Keyword::Say), TEXT])],
    ),
    (
        Some(Keyword::Now),
        &[
            (
                Form::Phrase(PhraseForm::Now),
                &[NOW, WORDS, Word(Keyword::Is), WORDS],
            ),
            (
                Form::Phrase(PhraseForm::Now),
                &[NOW, WORDS, Word(Keyword::Carries), WORDS],
            ),
            (
                Form::Phrase(PhraseForm::Now),
                &[NOW, WORDS, Word(Keyword::Wears), WORDS],
            ),
        ],
    ),
    (
        Some(Keyword::Move),
        &[(
            Form::Phrase(PhraseForm::Move),
            &[Word(Keyword::Move), WORDS, Word(Keyword::To), WORDS],
        )],
    ),
    (
        Some(Keyword::Increase),
        &[(
            Form::Phrase(PhraseForm::Increase),
            &[Word(Keyword::Increase), WORDS, BY, WORDS],
        )],
    ),
    (
        Some(Keyword::Decrease),
        &[(
            Form::Phrase(PhraseForm::Decrease),
            &[Word(Keyword::Decrease), WORDS, BY, WORDS],
        )],
    ),
    (
        Some(Keyword::Try),
        &[(Form::Phrase(PhraseForm::Try), &[Word(Keyword::Try), WORDS])],
    ),
    (
        Some(Keyword::Silently),
        &[(
            Form::Phrase(PhraseForm::TrySilently),
            &[Word(Keyword::Silently), Word(Keyword::Try), WORDS],
        )],
    ),
    (
        Some(Keyword::Follow),
        &[(
            Form::Phrase(PhraseForm::Follow),
            &[Word(Keyword::Follow), WORDS, Word(Keyword::Rules)],
        )],
    ),
    (
        Some(Keyword::Succeeds),
        &[(
            Form::Phrase(PhraseForm::RuleSucceeds),
            &[RULE, Word(Keyword::Succeeds)],
        )],
    ),
    (
        Some(Keyword::Fails),
        &[(
            Form::Phrase(PhraseForm::RuleFails),
            &[RULE, Word(Keyword::Fails)],
        )],
    ),
    (
        Some(Keyword::Make),
        &[(
            Form::Phrase(PhraseForm::MakeNoDecision),
            &[
                Word(Keyword::Make),
                Word(Keyword::No),
                Word(Keyword::Decision),
            ],
        )],
    ),
    (
        Some(Keyword::Continue),
        &[(
            Form::Phrase(PhraseForm::ContinueAction),
            &[Word(Keyword::Continue), THE, ACTION],
        )],
    ),
    (
        Some(Keyword::Stop),
        &[(
            Form::Phrase(PhraseForm::StopAction),
            &[Word(Keyword::Stop), THE, ACTION],
        )],
    ),
    (
        Some(Keyword::End),
        &[(Form::Phrase(PhraseForm::EndStory), &[END, THE, STORY])],
    ),
    (
        Some(Keyword::Finally),
        &[(
            Form::Phrase(PhraseForm::EndStoryFinally),
            &[END, THE, STORY, Word(Keyword::Finally)],
        )],
    ),
    (
        Some(Keyword::Saying),
        &[(
            Form::Phrase(PhraseForm::EndStorySaying),
            &[END, THE, STORY, Word(Keyword::Saying), TEXT],
        )],
    ),
    (
        Some(Keyword::If),
        &[(Form::Phrase(PhraseForm::If), &[IF, WORDS])],
    ),
    (
        Some(Keyword::Otherwise),
        &[(
            Form::Phrase(PhraseForm::OtherwiseIf),
            &[OTHERWISE, IF, WORDS],
        )],
    ),
    (
        Some(Keyword::Otherwise),
        &[(Form::Phrase(PhraseForm::Otherwise), &[OTHERWISE])],
    ),
    (
        Some(Keyword::Repeat),
        &[(
            Form::Phrase(PhraseForm::Repeat),
            &[
                Word(Keyword::Repeat),
                Word(Keyword::With),
                Letter(Class::Name),
                Word(Keyword::Running),
                Word(Keyword::Through),
                WORDS,
            ],
        )],
    ),
];

/// The phrase's form, if a form is one of a phrase.
pub fn is_phrase_form(form: Form) -> Option<PhraseForm>
    ensures { result ≡ is_phrase_form form }
{
    match form {
        Form::Phrase(phrase) => Some(phrase),
        _ => None,
    }
}

/// What a reading says of a phrase.
fn shape_found(reading: Option<Reading<'_, '_>>) -> Option<PhraseShape>
    ensures { result ≡ shape_found (option_map found_in reading.entry) }
{
    match reading {
        None => None,
        Some(found) => match is_phrase_form(found.form) {
            None => None,
            Some(form) => Some(PhraseShape {
                form,
                has_reserved_name: has_reserved_among(found.pieces, found.letters.as_slice()),
            }),
        },
    }
}

/// The first of the forms of phrases that fits the words.
#[tactic(auto, unfolding(crate::specs::PhraseForms::phrase_forms))]
pub fn phrase_reading<'a, 'b>(
    alloc: Global,
    tokens: &'a [Tagged<'b>],
) -> Result<Option<Reading<'a, 'b>>, AllocError>
    ensures { IfOk result (λ found. option_map found_in found ≡ lowest_fit phrase_forms tokens.now) }
{
    let signs = signs_of(tokens);
    let mut columns = ColumnStack::new(alloc);
    Ok(lowest_fit(alloc, &PHRASE_FORMS, &signs, tokens, &mut columns)?)
}

/// What a phrase is by its shape, without its mark and a closing `instead`; none where no form fits.
pub fn shape_in(alloc: Global, tokens: &[PackedToken]) -> Result<Option<PhraseShape>, AllocError>
    ensures { IfOk result (λ shape. shape ≡ shape_in tokens.now) }
{
    let words = with_tags(alloc, tokens)?;
    let found = phrase_reading(alloc, words.as_slice())?;
    Ok(shape_found(found))
}
