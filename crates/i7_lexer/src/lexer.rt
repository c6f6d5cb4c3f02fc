//! The one way from bytes to tokens.
ghost use Rattle.std.specs.Prelude.{◌≡◌, ◌<◌, ◌≤◌, ◌^◌, length, IfErr, MatchResult, None, OnOk, OnErr, Some};
ghost use Rattle.i7_lexer.specs.Readings.{HasTokens};
ghost use Rattle.i7_lexer.specs.Refusals.{IsRefused, IsNoText, longest};
ghost use Rattle.i7_lexer.specs.Sources.{line_at, IsText};

use crate::Lexed;
use crate::cursor::newlines;
use crate::joins::tokens_of;
use crate::placed::Places;
use crate::source::{LONGEST, bad_place, text_of};
use crate::survey::survey_of;
use std::alloc::Global;
use world_meaning::{Fault, FaultCode};

/// The tokens that a source spells: texts, words and marks, comments and white space left out, each
/// with its line and with how it begins it. The rules are this profile's; comments, texts and
/// paragraphs are meant as in "Writing with Inform", chapter 2.
///
/// # Errors
///
/// The first of these that stands, with its lowest line: `TooLong` past 262,144 bytes, `NotText`
/// for bytes that aren't UTF-8 and for control characters, `Unclosed` for a text or a comment
/// without its end, `BadIndent` for a line that is deeper than the line before lets it be. `Memory`,
/// at line 1, only where a growth was refused, and never for a source that is too long.
pub fn lex(alloc: Global, source: &[u8]) -> Result<Lexed, Fault>
    ensures { MatchResult result (HasTokens source.now) (IsRefused source.now) }
{
    refuse_long(source)?;
    let Ok(text) = text_of(alloc, source) else {
        return Err(Fault::OUT_OF_MEMORY);
    };
    refuse_controls(text.as_slice())?;
    let found = survey_of(text.as_slice())?;
    refuse_depth(found.deep)?;
    match tokens_of(alloc, &Places::new(text.as_slice()), found.count) {
        Ok(tokens) => Ok(Lexed::new(tokens)),
        Err(_) => Err(Fault::OUT_OF_MEMORY),
    }
}

/// `TooLong` where the source has more bytes than it may have.
fn refuse_long(source: &[u8]) -> Result<(), Fault>
    ensures short { OnOk result (length source.now ≤ longest) }
    ensures long { OnErr result (longest < length source.now) }
    ensures fault { IfErr result (λ f. f ≡ record { code = FaultCode.TooLong; line = line_at source.now longest }) }
{
    if source.len() > LONGEST {
        return Err(Fault {
            code: FaultCode::TooLong,
            line: line_at(source, LONGEST),
        });
    }
    Ok(())
}

/// `NotText` where something else than a character of a source stands.
fn refuse_controls(text: &[u8]) -> Result<(), Fault>
    requires { length text.now < 2 ^ 31 }
    ensures text { OnOk result (IsText text.now) }
    ensures fault { IfErr result (λ f. (f.code ≡ FaultCode.NotText) × IsNoText text.now f.line) }
{
    match bad_place(text) {
        Some(place) => Err(Fault {
            code: FaultCode::NotText,
            line: line_at(text, place),
        }),
        None => Ok(()),
    }
}

/// `BadIndent` where a line is too deep.
fn refuse_depth(deep: Option<u32>) -> Result<(), Fault>
    ensures shallow { OnOk result (deep ≡ None) }
    ensures fault { IfErr result (λ f. (f.code ≡ FaultCode.BadIndent) × (deep ≡ Some f.line)) }
{
    match deep {
        Some(line) => Err(Fault {
            code: FaultCode::BadIndent,
            line,
        }),
        None => Ok(()),
    }
}

/// The line of the byte at a place, counted from 1.
#[tactic(auto, unfolding(crate::specs::Sources::line_at))]
fn line_at(bytes: &[u8], place: usize) -> u32
    requires within { place ≤ length bytes.now }
    requires short { place < 2 ^ 31 }
    ensures { result ≡ line_at bytes.now place }
{
    let (front, _) = bytes.split_at(place);
    1 + newlines(front) as u32
}
