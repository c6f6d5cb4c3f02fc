//! What rules' heads ask, in the words of their sentences.
use i7_sentences::{Assertion, Rule, RuleSubject, Sentence, WordList};
use std::alloc::{AllocError, Global};

/// Adds words, each behind a blank.
fn add_words(told: &mut String, words: &WordList) -> Result<(), AllocError> {
    for word in words.as_slice() {
        told.push_str(" ")?;
        told.push_str(str::from_utf8(word.as_slice()).unwrap_or("?"))?;
    }
    Ok(())
}

/// Adds a word, and the words that stand behind it in a head, if there are any.
fn add_part(told: &mut String, word: &str, words: Option<&WordList>) -> Result<(), AllocError> {
    let Some(words) = words else {
        return Ok(());
    };
    told.push_str(word)?;
    add_words(told, words)
}

/// What a head asks behind the name of its book: a blank in front of each word, and nothing where it asks nothing.
fn head_told(alloc: Global, rule: &Rule) -> Result<String, AllocError> {
    let mut told = String::new(alloc);
    match &rule.subject {
        RuleSubject::Anything => {}
        RuleSubject::Pattern(words) => add_words(&mut told, words)?,
        RuleSubject::Place(words) => add_part(&mut told, " in", Some(words))?,
    }
    add_part(&mut told, " during", rule.scene.as_ref())?;
    add_part(&mut told, " when", rule.condition.as_ref())?;
    Ok(told)
}

/// What the heads of the rules ask, in the order of their sentences.
pub fn heads_of(alloc: Global, sentences: &[Sentence]) -> Result<Vec<String>, AllocError> {
    let mut heads = Vec::new(alloc);
    for sentence in sentences {
        if let Assertion::Rule(rule) = &sentence.said {
            heads.push(head_told(alloc, rule)?)?;
        }
    }
    Ok(heads)
}
