//! The body that the phrases of a rule are (*Writing with Inform*, 11.5 to 11.9).
ghost use Rattle.std.specs.Prelude.{◌≡◌, IfOk, OnOk, option_map};
ghost use Rattle.i7_phrases.specs.Around.{around_of, passed};
ghost use Rattle.i7_rules.specs.Bodies.{IsBodyRead};
ghost use Rattle.i7_rules.specs.Knowns.{known_of};
ghost use Rattle.i7_rules.specs.ReadSoFar.{IsEnded, IsFoundAround, over_at, state_of, with_found, with_line, ReadsOn};

use crate::known::Known;
use crate::step::step_of;
use i7_conditions::{Found, Line, Step, nest};
use i7_phrases::{Around, open_repeats_stand_around};
use i7_sentences::RulePhrase;
use play_meaning::tree::Phrase;
use std::alloc::{AllocError, Global};

/// What the phrases of a rule are.
#[derive(Drop)]
pub enum BodyRead {
    /// The body of their lines.
    Says(Vec<Phrase>),
    /// The names allow no reading of the phrase at this line, the first of such (C7).
    Unknown(u32),
    /// All are understood, but the phrase at this line, the first of such, holds more than the language allows (C12).
    TooMany(u32),
    /// Their lines can't be put together to a body.
    Unnested,
}

/// What is read of a body's first phrases.
#[derive(Drop)]
enum SoFar {
    Lines(Vec<Line>),
    /// A phrase at this line is over its limits.
    TooMany(u32),
}

/// With one line more.
fn with_line(so_far: SoFar, line: Line) -> Result<SoFar, AllocError>
    ensures { IfOk result (λ next. state_of next ≡ with_line (state_of so_far) line) }
{
    match so_far {
        SoFar::Lines(mut lines) => {
            lines.push(line)?;
            Ok(SoFar::Lines(lines))
        }
        SoFar::TooMany(first) => Ok(SoFar::TooMany(first)),
    }
}

/// With a phrase at this line that is over its limits.
fn over_at(so_far: SoFar, line: u32) -> SoFar
    ensures { state_of result ≡ over_at (state_of so_far) line }
{
    match so_far {
        SoFar::Lines(_) => SoFar::TooMany(line),
        SoFar::TooMany(first) => SoFar::TooMany(first),
    }
}

/// With a phrase that is found to be this line, if it is understood.
fn with_found(
    so_far: SoFar,
    phrase: &RulePhrase,
    found: Found<Step>,
) -> Result<Option<SoFar>, AllocError>
    ensures { IfOk result (λ next. option_map state_of next ≡ with_found (state_of so_far) phrase.now found) }
{
    match found {
        Found::Read(step) => {
            let line = Line {
                depth: phrase.depth,
                step,
            };
            let next = with_line(so_far, line)?;
            Ok(Some(next))
        }
        Found::TooMany => Ok(Some(over_at(so_far, phrase.line))),
        Found::Unread => Ok(None),
    }
}

/// What the next phrase is found to be, which is passed.
fn found_next(
    alloc: Global,
    known: &Known<'_>,
    around: &mut Around,
    phrase: &RulePhrase,
) -> Result<Found<Step>, AllocError>
    ensures read { IfOk result (IsFoundAround (known_of known.now) (around_of around.old) phrase.now) }
    ensures around { OnOk result (around_of around.new ≡ passed phrase.now (around_of around.old)) }
{
    around.leave(phrase.depth);
    let found = step_of(alloc, known, around.names(), phrase)?;
    match around.pass(alloc, phrase) {
        Ok(()) => Ok(found),
        Err(refused) => {
            drop(found);
            Err(refused)
        }
    }
}

/// What is read with one phrase more, if that is understood.
fn read_on(
    alloc: Global,
    known: &Known<'_>,
    around: &mut Around,
    so_far: SoFar,
    phrase: &RulePhrase,
) -> Result<Option<SoFar>, AllocError>
    ensures read { IfOk result (λ next. ReadsOn (known_of known.now) (around_of around.old) (state_of so_far) phrase.now (option_map state_of next)) }
    ensures around { OnOk result (around_of around.new ≡ passed phrase.now (around_of around.old)) }
{
    open_repeats_stand_around();
    match found_next(alloc, known, around, phrase) {
        Ok(found) => with_found(so_far, phrase, found),
        Err(refused) => {
            drop(so_far);
            Err(refused)
        }
    }
}

/// What a body is whose phrases were read.
fn ended(alloc: Global, so_far: SoFar) -> Result<BodyRead, AllocError>
    ensures { IfOk result (λ read. IsEnded so_far read) }
{
    match so_far {
        SoFar::Lines(lines) => match nest(alloc, lines)? {
            Some(body) => Ok(BodyRead::Says(body)),
            None => Ok(BodyRead::Unnested),
        },
        SoFar::TooMany(line) => Ok(BodyRead::TooMany(line)),
    }
}

/// What the phrases of a rule are: the body that they say, or the line of the first that isn't understood, and, if all are,
/// of the first that is over its limits.
pub fn body_of(
    alloc: Global,
    known: &Known<'_>,
    phrases: &[RulePhrase],
) -> Result<BodyRead, AllocError>
    ensures { IfOk result (λ read. IsBodyRead (known_of known.now) phrases.now read) }
{
    let mut around = Around::new(alloc);
    let mut so_far = SoFar::Lines(Vec::new(alloc));
    let mut rest = phrases;
    while let [phrase, behind @ ..] = rest {
        match read_on(alloc, known, &mut around, so_far, phrase)? {
            None => return Ok(BodyRead::Unknown(phrase.line)),
            Some(next) => so_far = next,
        }
        rest = behind;
    }
    ended(alloc, so_far)
}
