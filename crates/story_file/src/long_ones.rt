//! The lowest line at which something is too long for a story file.
ghost use Rattle.std.specs.Prelude.{◌≡◌, ℕ, List, IfOk, length, map};
ghost use Rattle.std.specs.List.{AllZip};
ghost use Rattle.object_words.specs.Mentions.{number_in};
ghost use Rattle.code_table.specs.Emitted.{IsToldLong};
ghost use Rattle.code_table.specs.Origins.{origins_of_rule, origins_of_scene};
ghost use Rattle.play_meaning.specs.Meant.{text_meant};
ghost use Rattle.play_meaning.specs.Patterns.{rule_meant};
ghost use Rattle.play_meaning.specs.ScenesMeant.{scene_meant};
ghost use Rattle.story_format.specs.Contents.{contents_meant};
ghost use Rattle.story_format.specs.Holding.{AreOf, IsHeld};
ghost use Rattle.story_file.specs.Lines.{scene_lines};
ghost use Rattle.story_file.specs.LongOnes.{IsToldAt, lower, lowest, one_text};
ghost use Rattle.story_file.specs.Meanings.{scope_said};

use crate::lines::{rule_lines, text_lines};
use crate::meaning::Meant;
use code_table::{rule_is_long, scene_is_long, text_is_long};
use i7_sentences::Sentence;
use object_words::Strings;
use play_meaning::Counts;
use play_meaning::tree::{MeantRule, MeantScene, Text};
use std::alloc::{AllocError, Global};
use story_format::numbered;

/// Of each text whether it is too long.
fn texts_long(
    alloc: Global,
    counts: &Counts,
    strings: &Strings,
    texts: &[Text],
) -> Result<Vec<bool>, AllocError>
    ensures { IfOk result (λ longs. AllZip (IsToldLong counts.now (number_in strings.now)) (map (λ text. one_text (text_meant text)) texts.now) longs.items) }
{
    let mut longs = Vec::new(alloc);
    let mut rest = texts;
    while let [text, after @ ..] = rest {
        longs.push(text_is_long(alloc, counts, strings, text)?)?;
        rest = after;
    }
    Ok(longs)
}

/// Of each rule whether it is too long.
fn rules_long(
    alloc: Global,
    counts: &Counts,
    strings: &Strings,
    rules: &[MeantRule],
) -> Result<Vec<bool>, AllocError>
    ensures { IfOk result (λ longs. AllZip (IsToldLong counts.now (number_in strings.now)) (map (λ rule. origins_of_rule (rule_meant rule)) rules.now) longs.items) }
{
    let mut longs = Vec::new(alloc);
    let mut rest = rules;
    while let [rule, after @ ..] = rest {
        longs.push(rule_is_long(alloc, counts, strings, rule)?)?;
        rest = after;
    }
    Ok(longs)
}

/// Of each scene whether it is too long.
fn scenes_long(
    alloc: Global,
    counts: &Counts,
    scenes: &[MeantScene],
) -> Result<Vec<bool>, AllocError>
    ensures { (string : List ℕ → ℕ) → IfOk result (λ longs. AllZip (IsToldLong counts.now string) (map (λ scene. origins_of_scene (scene_meant scene)) scenes.now) longs.items) }
{
    let mut longs = Vec::new(alloc);
    let mut rest = scenes;
    while let [scene, after @ ..] = rest {
        longs.push(scene_is_long(alloc, counts, scene)?)?;
        rest = after;
    }
    Ok(longs)
}

/// The lower of a line and that found before, if there is one.
fn lower(found: Option<u32>, line: u32) -> u32
    ensures { result ≡ lower found line }
{
    match found {
        Some(other) if other <= line => other,
        _ => line,
    }
}

/// The lowest of the lines at which something is told to be too long, if one is, and of that found before.
fn lowest(found: Option<u32>, lines: &[u32], longs: &[bool]) -> Option<u32>
    ensures { result ≡ lowest found lines.now longs.now }
{
    let mut found = found;
    let mut lines = lines;
    let mut longs = longs;
    while let [line, other_lines @ ..] = lines {
        let [is_long, other_longs @ ..] = longs else {
            return found;
        };
        if *is_long {
            found = Some(lower(found, *line));
        }
        lines = other_lines;
        longs = other_longs;
    }
    found
}

/// The line at which it is told that no story file says what sentences mean: the lowest of those of too long descriptions, rules and
/// scenes, and 1 where nothing is too long.
pub fn line_told(alloc: Global, sentences: &[Sentence], meant: &Meant) -> Result<u32, AllocError>
    requires held { IsHeld meant.now.tale }
    requires are_of { AreOf meant.now.tale (contents_meant meant.now.contents) }
    requires lines { meant.now.scene_lines.items ≡ scene_lines (scope_said sentences.now) sentences.now (length meant.now.tale.declared.scenes) }
    ensures { IfOk result (IsToldAt sentences.now meant.now.tale (contents_meant meant.now.contents)) }
{
    let contents = &meant.contents;
    let (counts, strings) = numbered(alloc, &meant.tale, contents)?;
    let lines = text_lines(alloc, sentences, meant.tale.objects.as_slice())?;
    let longs = texts_long(alloc, &counts, &strings, contents.texts.as_slice())?;
    let found = lowest(None, lines.as_slice(), longs.as_slice());
    let lines = rule_lines(alloc, sentences)?;
    let longs = rules_long(alloc, &counts, &strings, contents.rules.as_slice())?;
    let found = lowest(found, lines.as_slice(), longs.as_slice());
    let longs = scenes_long(alloc, &counts, contents.scenes.as_slice())?;
    Ok(lowest(found, meant.scene_lines.as_slice(), longs.as_slice()).unwrap_or(1))
}
