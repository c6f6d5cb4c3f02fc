//! The sentences of a source that tell what texts mean.
ghost use Rattle.std.specs.Prelude.{◌≡◌, ◌++◌, IfOk, OnOk};
ghost use Rattle.i7_grammar.specs.Knowns.{known_of};
ghost use Rattle.i7_grammar.specs.Understood.{all_lent, understood_by, understood_in};

use crate::known::Known;
use crate::target::{Target, target_of};
use i7_sentences::{Assertion, Sentence};
use std::alloc::{AllocError, Global};
use world_meaning::TextBytes;

/// A sentence that tells what texts mean, by its line, and what its words mean, if they mean anything.
#[derive(Clone, Copy)]
pub struct Understood<'a> {
    pub line: u32,
    pub texts: &'a [TextBytes],
    pub target: Option<Target>,
}

/// Adds what a sentence tells, if it tells what texts mean.
fn add_understood<'a>(
    alloc: Global,
    known: &Known<'_>,
    sentence: &'a Sentence,
    all: &mut Vec<Understood<'a>>,
) -> Result<(), AllocError>
    ensures { OnOk result (all_lent all.new.items ≡ all_lent all.old.items ++ understood_by (known_of known.now) sentence.now) }
{
    match &sentence.said {
        Assertion::Understand(said) => {
            let target = target_of(alloc, known, said.meaning.as_slice())?;
            all.push(Understood {
                line: sentence.line,
                texts: said.texts.as_slice(),
                target,
            })?;
            Ok(())
        }
        _ => Ok(()),
    }
}

/// What the sentences tell texts to mean, in order.
pub fn understood_in<'a>(
    alloc: Global,
    known: &Known<'_>,
    sentences: &'a [Sentence],
) -> Result<Vec<Understood<'a>>, AllocError>
    ensures { IfOk result (λ all. all_lent all.items ≡ understood_in (known_of known.now) sentences.now) }
{
    let mut all = Vec::new(alloc);
    let mut rest = sentences;
    while let [sentence, behind @ ..] = rest {
        add_understood(alloc, known, sentence, &mut all)?;
        rest = behind;
    }
    Ok(all)
}
