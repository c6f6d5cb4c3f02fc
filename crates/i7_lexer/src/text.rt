//! White space in texts: `"one` and, on the next line, `two"` is `one two`.
ghost use Rattle.std.specs.Prelude.{◌≡◌, ◌≤◌, length, IfOk};
ghost use Rattle.std.specs.List.{prefix_len};
ghost use Rattle.i7_lexer.specs.Texts.{folded, folded_run, is_unblank};

use crate::byte_class::is_blank;
use crate::cursor::newlines;
use crate::lexeme::space_len;
use std::alloc::{AllocError, Global};
use world_meaning::TextBytes;

/// A text as it is said: white space with one line break is one space, with more it is two line
/// feeds, and without any it stays.
#[tactic(auto, using(crate::proofs::Folding::folded_unbroken))]
pub(crate) fn folded(alloc: Global, bytes: &[u8]) -> Result<TextBytes, AllocError>
    ensures { IfOk result (λ text. text ≡ folded bytes.now) }
{
    if newlines(bytes) == 0 {
        Ok(TextBytes::copied(alloc, bytes)?)
    } else {
        Ok(folded_runs(alloc, bytes)?)
    }
}

/// The text with each run of white space folded.
fn folded_runs(alloc: Global, bytes: &[u8]) -> Result<TextBytes, AllocError>
    ensures { IfOk result (λ text. text ≡ folded bytes.now) }
{
    let mut out = Vec::with_capacity(alloc, bytes.len())?;
    let mut rest = bytes;
    while let [byte, ..] = rest {
        if is_blank(*byte) {
            let (run, behind) = rest.split_at(space_len(rest));
            out.extend_from_slice(folded_run(run))?;
            rest = behind;
        } else {
            let (word, behind) = rest.split_at(unblank_len(rest));
            out.extend_from_slice(word)?;
            rest = behind;
        }
    }
    Ok(TextBytes::new(out))
}

/// How many bytes stand before the first white space.
fn unblank_len(bytes: &[u8]) -> usize
    ensures value { result ≡ prefix_len is_unblank bytes.now }
    ensures bound { result ≤ length bytes.now }
{
    bytes.iter().take_while(|byte| !is_blank(**byte)).count()
}

/// What a run of white space becomes.
#[tactic(auto, unfolding(crate::specs::Texts::folded_run))]
fn folded_run(run: &[u8]) -> &[u8]
    ensures { result.now ≡ folded_run run.now }
{
    let breaks = newlines(run);
    if breaks == 0 {
        run
    } else if breaks == 1 {
        b" "
    } else {
        b"\n\n"
    }
}
