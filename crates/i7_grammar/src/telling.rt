//! The lines and synonyms that sentences tell, one sentence behind the other, and the lowest line at which one is over the limits.
ghost use Rattle.std.specs.Prelude.{◌≡◌, ◌≤◌, ◌∷◌, ◌++◌, [], length, map, IfOk, OnOk};
ghost use Rattle.std.specs.List.{flat_map};
ghost use Rattle.command_grammar.specs.Lines.{line_meant};
ghost use Rattle.i7_grammar.specs.GrammarScans.{is_over_by, named_from, over_by, over_from};
ghost use Rattle.i7_grammar.specs.Grammars.{line_by, lines_in, lines_told, synonym_by, synonyms_in, synonyms_told};
ghost use Rattle.i7_grammar.specs.TextTokens.{words_among};
ghost use Rattle.i7_grammar.specs.Understood.{all_lent, understood_lent};

use crate::limits::{any_is_full, any_is_long, line_unless};
use crate::target::Target;
use crate::text_tokens::tokens_of;
use crate::text_words::words_among;
use crate::understood::Understood;
use crate::word_table::{has_many, mention_told, words_by_name};
use command_grammar::{GrammarLine, Synonym};
use i7_sentences::lower_of;
use object_words::Strings;
use play_meaning::ActNo;
use std::alloc::{AllocError, Global};
use world_meaning::{Listed, ObjNo, Object, TextBytes, lowered};

/// The most lines of an author's: with the standard ones they are 65,535.
const MOST_LINES: usize = 65502;

/// Adds a line for an action.
fn add_line(
    alloc: Global,
    action: u8,
    text: &[u8],
    lines: &mut Vec<GrammarLine>,
) -> Result<(), AllocError>
    ensures { OnOk result (map line_meant lines.new.items ≡ map line_meant lines.old.items ++ line_by action text.now ∷ []) }
{
    let tokens = tokens_of(alloc, text)?;
    lines.push(GrammarLine {
        action: ActNo::new(action),
        tokens: Listed::new(tokens),
    })?;
    Ok(())
}

/// Adds a line for an action by each text.
fn add_each(
    alloc: Global,
    action: u8,
    texts: &[TextBytes],
    lines: &mut Vec<GrammarLine>,
) -> Result<(), AllocError>
    ensures { OnOk result (map line_meant lines.new.items ≡ map line_meant lines.old.items ++ map (line_by action) texts.now) }
{
    let mut rest = texts;
    while let [text, behind @ ..] = rest {
        add_line(alloc, action, text.as_slice(), lines)?;
        rest = behind;
    }
    Ok(())
}

/// Adds the lines that a sentence tells.
fn add_lines(
    alloc: Global,
    here: &Understood<'_>,
    lines: &mut Vec<GrammarLine>,
) -> Result<(), AllocError>
    ensures { OnOk result (map line_meant lines.new.items ≡ map line_meant lines.old.items ++ lines_told (understood_lent here.now)) }
{
    match here.target {
        Some(Target::Action(action, _)) => add_each(alloc, action, here.texts, lines),
        Some(Target::Object(_)) | None => Ok(()),
    }
}

/// Adds the words of a text that an object goes by.
fn add_words(
    alloc: Global,
    object: u16,
    text: &[u8],
    synonyms: &mut Vec<Synonym>,
) -> Result<(), AllocError>
    ensures { OnOk result (synonyms.new.items ≡ synonyms.old.items ++ map (synonym_by object) (words_among text.now)) }
{
    let words = words_among(alloc, text)?;
    let mut rest = words.as_slice();
    while let [word, behind @ ..] = rest {
        synonyms.push(Synonym {
            object: ObjNo::new(object),
            word: TextBytes::new(lowered(alloc, word)?),
        })?;
        rest = behind;
    }
    Ok(())
}

/// The same of texts.
fn add_texts(
    alloc: Global,
    object: u16,
    texts: &[TextBytes],
    synonyms: &mut Vec<Synonym>,
) -> Result<(), AllocError>
    ensures { OnOk result (synonyms.new.items ≡ synonyms.old.items ++ map (synonym_by object) (flat_map words_among texts.now)) }
{
    let mut rest = texts;
    while let [text, behind @ ..] = rest {
        add_words(alloc, object, text.as_slice(), synonyms)?;
        rest = behind;
    }
    Ok(())
}

/// Adds the synonyms that a sentence tells.
fn add_synonyms(
    alloc: Global,
    here: &Understood<'_>,
    synonyms: &mut Vec<Synonym>,
) -> Result<(), AllocError>
    ensures { OnOk result (synonyms.new.items ≡ synonyms.old.items ++ synonyms_told (understood_lent here.now)) }
{
    match here.target {
        Some(Target::Object(object)) => add_texts(alloc, object, here.texts, synonyms),
        Some(Target::Action(_, _)) | None => Ok(()),
    }
}

/// Whether a sentence is over the limits, where so many lines and these words are told up to it.
#[tactic(auto, unfolding(crate::specs::GrammarScans::is_over_by))]
fn is_over(
    alloc: Global,
    count: usize,
    words: &[Strings],
    here: &Understood<'_>,
) -> Result<bool, AllocError>
    ensures { IfOk result (λ is. is ≡ is_over_by count words.now (understood_lent here.now)) }
{
    if any_is_long(here.texts) {
        return Ok(true);
    }
    if any_is_full(alloc, here)? {
        return Ok(true);
    }
    Ok(has_many(words, here.target) || count > MOST_LINES)
}

/// Its line, if it is.
fn over_by(
    alloc: Global,
    count: usize,
    words: &[Strings],
    here: &Understood<'_>,
) -> Result<Option<u32>, AllocError>
    ensures { IfOk result (λ line. line ≡ over_by count words.now (understood_lent here.now)) }
{
    let is = is_over(alloc, count, words, here)?;
    Ok(line_unless(!is, here.line))
}

/// The lines that sentences tell.
pub fn lines_in(alloc: Global, all: &[Understood<'_>]) -> Result<Vec<GrammarLine>, AllocError>
    ensures { IfOk result (λ lines. map line_meant lines.items ≡ lines_in (all_lent all.now)) }
{
    let mut lines = Vec::new(alloc);
    let mut rest = all;
    while let [here, behind @ ..] = rest {
        add_lines(alloc, here, &mut lines)?;
        rest = behind;
    }
    Ok(lines)
}

/// The synonyms that sentences tell.
pub fn synonyms_in(alloc: Global, all: &[Understood<'_>]) -> Result<Vec<Synonym>, AllocError>
    ensures { IfOk result (λ synonyms. synonyms.items ≡ synonyms_in (all_lent all.now)) }
{
    let mut synonyms = Vec::new(alloc);
    let mut rest = all;
    while let [here, behind @ ..] = rest {
        add_synonyms(alloc, here, &mut synonyms)?;
        rest = behind;
    }
    Ok(synonyms)
}

/// How many lines a sentence tells.
fn line_count(here: &Understood<'_>) -> usize
    ensures { result ≡ length (lines_told (understood_lent here.now)) }
{
    match here.target {
        Some(Target::Action(_, _)) => here.texts.len(),
        Some(Target::Object(_)) | None => 0,
    }
}

/// The lowest line of a sentence that is over the limits, where all of them tell no more lines than so many.
#[tactic(auto, using(i7_sentences::proofs::Lowest::lower_steps))]
fn lowest_over_of(
    alloc: Global,
    total: usize,
    words: Vec<Strings>,
    all: &[Understood<'_>],
) -> Result<Option<u32>, AllocError>
    requires within { length (lines_in (all_lent all.now)) ≤ total }
    ensures { IfOk result (λ line. line ≡ over_from 0 words.items (all_lent all.now)) }
{
    let mut words = words;
    let mut count = 0usize;
    let mut low = None;
    let mut rest = all;
    while let [here, behind @ ..] = rest {
        mention_told(alloc, &mut words, here)?;
        count += line_count(here);
        low = lower_of(low, over_by(alloc, count, words.as_slice(), here)?);
        rest = behind;
    }
    Ok(low)
}

/// The same, where these are the objects.
pub fn lowest_over(
    alloc: Global,
    total: usize,
    objects: &[Object],
    all: &[Understood<'_>],
) -> Result<Option<u32>, AllocError>
    requires within { length (lines_in (all_lent all.now)) ≤ total }
    ensures { IfOk result (λ line. line ≡ over_from 0 (named_from 0 objects.now) (all_lent all.now)) }
{
    if all.is_empty() {
        return Ok(None);
    }
    let words = words_by_name(alloc, objects)?;
    Ok(lowest_over_of(alloc, total, words, all)?)
}
