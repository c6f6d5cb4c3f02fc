//! The outline of a source: its sentences, its story, and what they mean.
use crate::unlisted::Unlisted;
use i7_claims::Claimed;
use i7_kinds::tale_of;
use i7_lexer::lex;
use i7_names::{SourceNames, names_in};
use i7_resolution::{Resolution, Resolved, resolution_of};
use i7_sentences::{Sentence, read};
use std::alloc::Global;
use story_file::compile;
use story_format::{Story, load};
use world_meaning::{Fault, FaultCode, Tale};

/// What the sentences of a source mean.
#[derive(Drop)]
pub struct Meant {
    pub tale: Tale,
    /// What names stand for, and those of the author's rulebooks.
    pub names: SourceNames,
    /// The author's rules and the texts that describe, in the order of their sentences, the scenes, and the commands.
    pub resolved: Resolved,
}

/// A source's sentences, the story that it is compiled to, and what they mean.
#[derive(Drop)]
pub struct Outline {
    pub sentences: Vec<Sentence>,
    pub story: Story,
    pub meant: Meant,
}

/// The story of a source.
fn story_of(alloc: Global, source: &[u8]) -> Result<Story, Unlisted> {
    let bytes = compile(alloc, source)?;
    Ok(load(alloc, bytes.as_slice())?)
}

/// The sentences of a source.
fn sentences_of(alloc: Global, source: &[u8]) -> Result<Vec<Sentence>, Unlisted> {
    let lexed = lex(alloc, source)?;
    Ok(read(alloc, &lexed)?)
}

/// What is resolved of sentences that mean this tale.
fn resolved_of(
    alloc: Global,
    tale: &Tale,
    names: &SourceNames,
    sentences: &[Sentence],
) -> Result<Resolved, Unlisted> {
    // a source that is compiled has no more
    if names.rulebooks.len() > 100 || names.scenes > 50 {
        return Err(Unlisted::Refused(Fault {
            code: FaultCode::TooMany,
            line: 1,
        }));
    }
    match resolution_of(alloc, names, tale, sentences)? {
        Resolution::Says(resolved) => Ok(resolved),
        Resolution::Refused(fault) => Err(Unlisted::Refused(fault)),
    }
}

/// The tale of sentences, and what their names stand for.
fn tale_and_names(alloc: Global, claimed: &Claimed<'_>) -> Result<(Tale, SourceNames), Unlisted> {
    let names = names_in(alloc, claimed)?;
    match tale_of(alloc, claimed) {
        Ok(said) => Ok((said.tale, names)),
        Err(fault) => {
            drop(names);
            Err(Unlisted::Refused(fault))
        }
    }
}

/// What sentences mean.
fn meant_of(alloc: Global, sentences: &[Sentence]) -> Result<Meant, Unlisted> {
    let claimed = Claimed::new(alloc, sentences)?;
    let told = tale_and_names(alloc, &claimed);
    drop(claimed);
    let (tale, names) = told?;
    match resolved_of(alloc, &tale, &names, sentences) {
        Ok(resolved) => Ok(Meant {
            tale,
            names,
            resolved,
        }),
        Err(unlisted) => {
            drop(tale);
            drop(names);
            Err(unlisted)
        }
    }
}

/// The outline of a source; where it is refused, why.
pub fn outline_of(alloc: Global, source: &[u8]) -> Result<Outline, Unlisted> {
    let story = story_of(alloc, source)?;
    let sentences = match sentences_of(alloc, source) {
        Ok(sentences) => sentences,
        Err(unlisted) => {
            drop(story);
            return Err(unlisted);
        }
    };
    match meant_of(alloc, sentences.as_slice()) {
        Ok(meant) => Ok(Outline {
            sentences,
            story,
            meant,
        }),
        Err(unlisted) => {
            drop(story);
            drop(sentences);
            Err(unlisted)
        }
    }
}
