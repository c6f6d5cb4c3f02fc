//! Words that objects go by besides those of their names: `Understand "orb" as the ball.` (*Writing with Inform*, 17.8).
ghost use Rattle.std.specs.Prelude.{◌≡◌, ◌∷◌, [], IfOk, OnOk, fold};
ghost use Rattle.command_grammar.specs.Synonyms.{own_words, words_said};
ghost use Rattle.object_words.specs.Mentions.{mention};

use object_words::{Strings, words_for};
use std::alloc::{AllocError, Global};
use world_meaning::{ObjNo, TextBytes};

/// A word, in small letters, that an object goes by.
#[derive(Drop)]
pub struct Synonym {
    pub object: ObjNo,
    pub word: TextBytes,
}

/// Adds a synonym's word, if it is the object's.
fn mention_own(
    alloc: Global,
    words: &mut Strings,
    number: usize,
    synonym: &Synonym,
) -> Result<(), AllocError>
    ensures { OnOk result (words.new ≡ fold mention words.old (own_words number (synonym.now ∷ []))) }
{
    if usize::from(synonym.object.get()) == number {
        words.mention(alloc, synonym.word.as_slice())?;
    }
    Ok(())
}

/// The words of an object of this number and name, each once: those of its name, and then those of its synonyms.
#[tactic(auto, unfolding(crate::specs::Synonyms::words_said))]
pub fn words_said(
    alloc: Global,
    synonyms: &[Synonym],
    number: usize,
    name: &[u8],
) -> Result<Strings, AllocError>
    ensures { IfOk result (λ words. words ≡ words_said synonyms.now number name.now) }
{
    let mut words = words_for(alloc, number, name)?;
    let mut rest = synonyms;
    while let [synonym, behind @ ..] = rest {
        mention_own(alloc, &mut words, number, synonym)?;
        rest = behind;
    }
    Ok(words)
}
