//! The sentences of a source that say when scenes begin and end.
ghost use Rattle.std.specs.Prelude.{◌≡◌, ◌++◌, IfOk, OnOk};
ghost use Rattle.i7_resolution.specs.SceneChangeList.{changes_in, changes_lent, changes_said};

use i7_sentences::{Assertion, SceneChange, Sentence};
use std::alloc::{AllocError, Global};

/// What a sentence says of a scene, and its line.
#[derive(Clone, Copy)]
pub struct ChangeAt<'a> {
    pub line: u32,
    pub said: &'a SceneChange,
}

/// Adds what a sentence says, if it says when a scene begins or ends.
fn add_change<'a>(changes: &mut Vec<ChangeAt<'a>>, sentence: &'a Sentence) -> Result<(), AllocError>
    ensures { OnOk result (changes_lent changes.new.items ≡ changes_lent changes.old.items ++ changes_said sentence.now) }
{
    match &sentence.said {
        Assertion::SceneChange(said) => {
            let line = sentence.line;
            changes.push(ChangeAt { line, said })?;
            Ok(())
        }
        _ => Ok(()),
    }
}

/// What the sentences say of scenes, in order.
pub fn changes_in<'a>(
    alloc: Global,
    sentences: &'a [Sentence],
) -> Result<Vec<ChangeAt<'a>>, AllocError>
    ensures { IfOk result (λ changes. changes_lent changes.items ≡ changes_in sentences.now) }
{
    let mut changes = Vec::new(alloc);
    let mut rest = sentences;
    while let [sentence, behind @ ..] = rest {
        add_change(&mut changes, sentence)?;
        rest = behind;
    }
    Ok(changes)
}
