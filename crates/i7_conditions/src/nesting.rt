//! The body that the lines of a rule are (*Writing with Inform*, 11.6 to 11.8): put together from the last line to the
//! first, since what belongs to a line stands behind it.
ghost use Rattle.std.specs.Prelude.{◌≡◌, ◌<◌, ◌+◌, ◌++◌, ◌∷◌, [], None, Some, IfOk, OnOk, List, if◌then◌else◌, length, option_map};
ghost use Rattle.play_meaning.specs.Meant.{body_meant, phrase_meant};
ghost use Rattle.play_meaning.specs.Trees.{Body};
ghost use Rattle.i7_conditions.specs.Levels.{alone, behind, level_of, levels_of, no_level, placed, whole, with_inner, with_otherwise, with_phrase};
ghost use Rattle.i7_conditions.specs.Nesting.{IsBody, IsNested};
ghost use Rattle.i7_conditions.specs.declared.line.Line.{Line as Lines};
ghost use Rattle.i7_conditions.specs.declared.line.Step.{Step as Steps};

use crate::line::{Line, Step};
use play_meaning::tree::{Branch, Condition, Phrase};
use std::alloc::{AllocError, Global};

/// What was read so far of the lines of one depth, the last first.
#[derive(Drop)]
struct Level {
    /// Whether an `otherwise` was read, whose `if` is still to come.
    waits: bool,
    branches: Vec<Branch>,
    others: Vec<Phrase>,
    phrases: Vec<Phrase>,
}

/// Nothing so far.
fn no_level(alloc: Global) -> Level
    ensures { level_of result ≡ no_level }
{
    Level {
        waits: false,
        branches: Vec::new(alloc),
        others: Vec::new(alloc),
        phrases: Vec::new(alloc),
    }
}

/// The phrases of a level in their order.
fn body_in(level: Level) -> Vec<Phrase>
    ensures { body_meant result.items ≡ (level_of level).body }
{
    let mut phrases = level.phrases;
    phrases.reverse();
    phrases
}

/// With a phrase in front; none where an `otherwise` waits for its `if`.
fn with_phrase(phrase: Phrase, level: Level) -> Result<Option<Level>, AllocError>
    ensures { IfOk result (λ found. option_map level_of found ≡ with_phrase (phrase_meant phrase) (level_of level)) }
{
    if level.waits {
        drop(phrase);
        return Ok(None);
    }
    let mut level = level;
    level.phrases.push(phrase)?;
    Ok(Some(level))
}

/// With what is done otherwise.
fn with_otherwise(alloc: Global, inner: Vec<Phrase>, level: Level) -> Option<Level>
    ensures { option_map level_of result ≡ with_otherwise (body_meant inner.items) (level_of level) }
{
    if level.waits {
        return None;
    }
    Some(Level {
        waits: true,
        branches: Vec::new(alloc),
        others: inner,
        phrases: level.phrases,
    })
}

/// With the branch of an `otherwise if`.
fn with_branch(condition: Condition, inner: Vec<Phrase>, level: Level) -> Result<Level, AllocError>
    ensures { IfOk result (λ found. Some (level_of found) ≡ with_inner (Step.OtherwiseIf condition) (body_meant inner.items) (level_of level)) }
{
    let mut level = level;
    level.waits = true;
    level.branches.push(Branch {
        condition,
        phrases: inner,
    })?;
    Ok(level)
}

/// With the choice of an `if`, to which belongs what is done otherwise.
fn with_choice(
    alloc: Global,
    condition: Condition,
    inner: Vec<Phrase>,
    level: Level,
) -> Result<Level, AllocError>
    ensures { IfOk result (λ found. Some (level_of found) ≡ with_inner (Step.If condition) (body_meant inner.items) (level_of level)) }
{
    let first = Branch {
        condition,
        phrases: inner,
    };
    let mut branches = level.branches;
    branches.reverse();
    let mut phrases = level.phrases;
    phrases.push(Phrase::If(first, branches, level.others))?;
    Ok(Level {
        waits: false,
        branches: Vec::new(alloc),
        others: Vec::new(alloc),
        phrases,
    })
}

/// With a line and the deeper ones that belong to it; none where no deeper one may.
fn with_inner(
    alloc: Global,
    step: Step,
    inner: Vec<Phrase>,
    level: Level,
) -> Result<Option<Level>, AllocError>
    ensures { IfOk result (λ found. option_map level_of found ≡ with_inner step (body_meant inner.items) (level_of level)) }
{
    match step {
        Step::Does(simple) | Step::Instead(simple) => {
            drop(simple);
            Ok(None)
        }
        Step::If(condition) => Ok(Some(with_choice(alloc, condition, inner, level)?)),
        Step::OtherwiseIf(condition) => Ok(Some(with_branch(condition, inner, level)?)),
        Step::Otherwise => Ok(with_otherwise(alloc, inner, level)),
        Step::Repeat(description) => with_phrase(Phrase::Repeat(description, inner), level),
    }
}

/// With a line behind which none is deeper.
fn alone(alloc: Global, step: Step, level: Level) -> Result<Option<Level>, AllocError>
    ensures { IfOk result (λ found. option_map level_of found ≡ alone step (level_of level)) }
{
    match step {
        Step::Does(simple) => with_phrase(Phrase::Plain(simple), level),
        Step::Instead(simple) => with_phrase(Phrase::Instead(simple), level),
        _ => with_inner(alloc, step, Vec::new(alloc), level),
    }
}

/// With a line behind which these stand deeper.
fn behind(
    alloc: Global,
    step: Step,
    inner: Level,
    level: Level,
) -> Result<Option<Level>, AllocError>
    ensures { IfOk result (λ found. option_map level_of found ≡ behind step (level_of inner) (level_of level)) }
{
    if inner.waits {
        drop(step);
        return Ok(None);
    }
    with_inner(alloc, step, body_in(inner), level)
}

/// Makes so many levels that there is one of this depth.
fn raise(alloc: Global, depth: usize, levels: &mut Vec<Level>) -> Result<(), AllocError>
    ensures same { OnOk result ((step : Steps) → placed depth step (levels_of levels.new.items) ≡ placed depth step (levels_of levels.old.items)) }
    ensures enough { OnOk result (depth < length levels.new.items) }
{
    while levels.len() <= depth {
        levels.push(no_level(alloc))?;
    }
    Ok(())
}

/// Puts back the deepest level, if there is one.
fn put_back(found: Option<Level>, levels: &mut Vec<Level>) -> Result<bool, AllocError>
    ensures { IfOk result (λ kept. (if kept then Some (levels_of levels.new.items) else None) ≡ option_map (λ level. levels_of levels.old.items ++ level ∷ []) (option_map level_of found)) }
{
    match found {
        None => Ok(false),
        Some(level) => {
            levels.push(level)?;
            Ok(true)
        }
    }
}

/// Adds a line to the deepest level, which is that of its depth.
fn place_alone(alloc: Global, line: Line, levels: &mut Vec<Level>) -> Result<bool, AllocError>
    requires deepest { length levels.old.items ≡ line.depth + 1 }
    ensures { IfOk result (λ kept. (if kept then Some (levels_of levels.new.items) else None) ≡ placed line.depth line.step (levels_of levels.old.items)) }
{
    let Some(level) = levels.pop() else {
        drop(line);
        return Ok(false);
    };
    let found = alone(alloc, line.step, level)?;
    put_back(found, levels)
}

/// Adds a line to the level of its depth, with a deeper one that belongs to it, which must be the next.
fn place_behind(
    alloc: Global,
    line: Line,
    inner: Level,
    levels: &mut Vec<Level>,
) -> Result<bool, AllocError>
    requires deep { line.depth < length levels.old.items }
    ensures { IfOk result (λ kept. (if kept then Some (levels_of levels.new.items) else None) ≡ placed line.depth line.step (levels_of levels.old.items ++ level_of inner ∷ [])) }
{
    if levels.len() > line.depth + 1 {
        return Ok(false);
    }
    let Some(level) = levels.pop() else {
        return Ok(false);
    };
    let found = behind(alloc, line.step, inner, level)?;
    put_back(found, levels)
}

/// Adds a line in front of those that were read, if it may stand there.
fn place(alloc: Global, line: Line, levels: &mut Vec<Level>) -> Result<bool, AllocError>
    ensures { IfOk result (λ kept. (if kept then Some (levels_of levels.new.items) else None) ≡ placed line.depth line.step (levels_of levels.old.items)) }
{
    raise(alloc, line.depth, levels)?;
    if levels.len() == line.depth + 1 {
        return place_alone(alloc, line, levels);
    }
    let Some(inner) = levels.pop() else {
        return Ok(false);
    };
    place_behind(alloc, line, inner, levels)
}

/// The body that the levels are: one at most may be left, in which no `otherwise` waits.
fn whole(alloc: Global, levels: Vec<Level>) -> Option<Vec<Phrase>>
    ensures { option_map (λ body. body_meant body.items) result ≡ whole (levels_of levels.items) }
{
    let mut levels = levels;
    let Some(level) = levels.pop() else {
        return Some(Vec::new(alloc));
    };
    if level.waits || !levels.is_empty() {
        return None;
    }
    Some(body_in(level))
}

/// The body that lines are, if they can be put together: behind a phrase stands none deeper, and each `otherwise` has its
/// `if`.
pub fn nest(alloc: Global, lines: Vec<Line>) -> Result<Option<Vec<Phrase>>, AllocError>
    ensures { IfOk result (λ body. IsNested lines.items (option_map (λ body. body_meant body.items) body)) }
{
    let mut levels = Vec::new(alloc);
    let mut rest = lines;
    while let Some(line) = rest.pop() {
        if !place(alloc, line, &mut levels)? {
            return Ok(None);
        }
    }
    Ok(whole(alloc, levels))
}

/// Lines are one body at most.
pub fn one_body_is_nested()
    ensures { (lines : List Lines) (a b : Body) → IsBody 0 lines a → IsBody 0 lines b → a ≡ b }
{}
