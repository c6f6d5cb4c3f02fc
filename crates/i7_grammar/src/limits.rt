//! What is wrong with sentences that tell what texts mean: words that mean nothing, texts that don't suit, and what is too long.
ghost use Rattle.std.specs.Prelude.{◌≡◌, Some, None, count_by, map, IfOk};
ghost use Rattle.std.specs.List.{list_all, list_any};
ghost use Rattle.command_grammar.specs.Lines.{token_meant};
ghost use Rattle.i7_sentences.specs.Lowest.{lowest};
ghost use Rattle.play_meaning.specs.Grammar.{is_slot};
ghost use Rattle.i7_grammar.specs.Grammars.{all_suit, is_full, is_long, line_by, line_unless, lines_by, noun_number, suits, unknown_at, unsuited_at};
ghost use Rattle.i7_grammar.specs.Understood.{all_lent, understood_lent};

use crate::target::Target;
use crate::text_tokens::{has_slot, tokens_of};
use crate::understood::Understood;
use command_grammar::{KeptToken, MOST_TOKENS};
use i7_actions::NounCount;
use i7_sentences::lower_of;
use std::alloc::{AllocError, Global};
use world_meaning::{MOST_BYTES, TextBytes};

/// The line, where something isn't so.
pub fn line_unless(is_so: bool, line: u32) -> Option<u32>
    ensures { result ≡ line_unless is_so line }
{
    if is_so { None } else { Some(line) }
}

/// The lowest line of a sentence whose words mean nothing.
#[tactic(auto, using(i7_sentences::proofs::Lowest::lower_steps))]
pub fn lowest_unknown(all: &[Understood<'_>]) -> Option<u32>
    ensures { result ≡ lowest unknown_at (all_lent all.now) }
{
    let mut low = None;
    let mut rest = all;
    while let [here, behind @ ..] = rest {
        low = lower_of(low, line_unless(here.target.is_some(), here.line));
        rest = behind;
    }
    low
}

/// How many nouns there are.
fn noun_number(nouns: NounCount) -> usize
    ensures { result ≡ noun_number nouns }
{
    match nouns {
        NounCount::Zero => 0,
        NounCount::One => 1,
        NounCount::Two => 2,
    }
}

fn is_slot(token: &KeptToken) -> bool
    ensures { result ≡ is_slot (token_meant token.now) }
{
    match token {
        KeptToken::Word(_) => false,
        KeptToken::Something | KeptToken::Direction => true,
    }
}

/// How many slots a line has.
fn slot_count(tokens: &[KeptToken]) -> usize
    ensures { result ≡ count_by is_slot (map token_meant tokens.now) }
{
    tokens.iter().filter(|token| is_slot(*token)).count()
}

/// Whether a text suits what it means.
fn suits(alloc: Global, target: Target, text: &[u8]) -> Result<bool, AllocError>
    ensures { IfOk result (λ is. is ≡ suits target text.now) }
{
    match target {
        Target::Action(_, nouns) => {
            let tokens = tokens_of(alloc, text)?;
            Ok(slot_count(tokens.as_slice()) == noun_number(nouns))
        }
        Target::Object(_) => Ok(!has_slot(text)),
    }
}

/// Whether each of the texts suits what it means.
fn each_suits(alloc: Global, target: Target, texts: &[TextBytes]) -> Result<bool, AllocError>
    ensures { IfOk result (λ are. are ≡ list_all (suits target) texts.now) }
{
    let mut rest = texts;
    while let [text, behind @ ..] = rest {
        if !suits(alloc, target, text.as_slice())? {
            return Ok(false);
        }
        rest = behind;
    }
    Ok(true)
}

/// The same, if they mean anything.
fn all_suit(alloc: Global, here: &Understood<'_>) -> Result<bool, AllocError>
    ensures { IfOk result (λ are. are ≡ all_suit here.now.target here.now.texts.now) }
{
    match here.target {
        None => Ok(true),
        Some(target) => Ok(each_suits(alloc, target, here.texts)?),
    }
}

/// The line of a sentence of which a text doesn't suit what it means.
fn unsuited_at(alloc: Global, here: &Understood<'_>) -> Result<Option<u32>, AllocError>
    ensures { IfOk result (λ line. line ≡ unsuited_at (understood_lent here.now)) }
{
    Ok(line_unless(all_suit(alloc, here)?, here.line))
}

/// The lowest such line.
#[tactic(auto, using(i7_sentences::proofs::Lowest::lower_steps))]
pub fn lowest_unsuited(alloc: Global, all: &[Understood<'_>]) -> Result<Option<u32>, AllocError>
    ensures { IfOk result (λ line. line ≡ lowest unsuited_at (all_lent all.now)) }
{
    let mut low = None;
    let mut rest = all;
    while let [here, behind @ ..] = rest {
        low = lower_of(low, unsuited_at(alloc, here)?);
        rest = behind;
    }
    Ok(low)
}

/// Whether one of the texts is too long.
pub fn any_is_long(texts: &[TextBytes]) -> bool
    ensures { result ≡ list_any is_long texts.now }
{
    texts.iter().any(|text| text.as_slice().len() > MOST_BYTES)
}

/// Whether a text has too many tokens for a line.
fn is_full(alloc: Global, action: u8, text: &TextBytes) -> Result<bool, AllocError>
    ensures { IfOk result (λ is. is ≡ is_full (line_by action text.now)) }
{
    let tokens = tokens_of(alloc, text.as_slice())?;
    Ok(tokens.len() > MOST_TOKENS)
}

/// Whether one of the texts has too many tokens for a line.
fn any_text_is_full(alloc: Global, action: u8, texts: &[TextBytes]) -> Result<bool, AllocError>
    ensures { IfOk result (λ is. is ≡ list_any is_full (map (line_by action) texts.now)) }
{
    let mut rest = texts;
    while let [text, behind @ ..] = rest {
        if is_full(alloc, action, text)? {
            return Ok(true);
        }
        rest = behind;
    }
    Ok(false)
}

/// Whether one of a sentence's lines has too many tokens.
pub fn any_is_full(alloc: Global, here: &Understood<'_>) -> Result<bool, AllocError>
    ensures { IfOk result (λ is. is ≡ list_any is_full (lines_by here.now.target here.now.texts.now)) }
{
    match here.target {
        Some(Target::Action(action, _)) => Ok(any_text_is_full(alloc, action, here.texts)?),
        Some(Target::Object(_)) | None => Ok(false),
    }
}
