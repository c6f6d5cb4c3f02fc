//! The texts with which a source's sentences describe.
ghost use Rattle.std.specs.Prelude.{◌≡◌, ◌++◌, IfOk, OnOk};
ghost use Rattle.i7_resolution.specs.TextList.{texts_in, texts_lent, texts_said};

use i7_sentences::{Assertion, Sentence};
use std::alloc::{AllocError, Global};
use world_meaning::TextBytes;

/// A text as it is written, and the line of the sentence that describes with it.
#[derive(Clone, Copy)]
pub struct TextAt<'a> {
    pub line: u32,
    pub text: &'a TextBytes,
}

/// Adds the text of a sentence, if it describes with one.
fn add_text<'a>(texts: &mut Vec<TextAt<'a>>, sentence: &'a Sentence) -> Result<(), AllocError>
    ensures { OnOk result (texts_lent texts.new.items ≡ texts_lent texts.old.items ++ texts_said sentence.now) }
{
    let line = sentence.line;
    match &sentence.said {
        Assertion::Description(text) => texts.push(TextAt { line, text })?,
        Assertion::DescriptionOf { text, .. } => texts.push(TextAt { line, text })?,
        _ => {}
    }
    Ok(())
}

/// The texts with which sentences describe, in order.
pub fn texts_in<'a>(alloc: Global, sentences: &'a [Sentence]) -> Result<Vec<TextAt<'a>>, AllocError>
    ensures { IfOk result (λ texts. texts_lent texts.items ≡ texts_in sentences.now) }
{
    let mut texts = Vec::new(alloc);
    let mut rest = sentences;
    while let [sentence, behind @ ..] = rest {
        add_text(&mut texts, sentence)?;
        rest = behind;
    }
    Ok(texts)
}
