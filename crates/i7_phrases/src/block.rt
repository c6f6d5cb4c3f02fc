//! Phrases that others belong to (*Writing with Inform*, 11.6 to 11.9): `if the box is open:`, `otherwise:`, `repeat with gem
//! running through lit things:`.
ghost use Rattle.std.specs.Prelude.{◌≡◌, ◌≤◌, length, option_map, IfOk};
ghost use Rattle.i7_conditions.specs.Conjoining.{found_condition};
ghost use Rattle.i7_conditions.specs.Descriptions.{found_described};
ghost use Rattle.i7_conditions.specs.Readings.{one};
ghost use Rattle.i7_conditions.specs.Scopes.{Scope as Names, scope_of};
ghost use Rattle.i7_phrases.specs.BlockForms.{block_said, found_block};
ghost use Rattle.i7_phrases.specs.Blocks as block;
ghost use Rattle.i7_phrases.specs.Blocks.{Opens, block_is_over, is_block};
ghost use Rattle.i7_phrases.specs.Told.{IsToldOf};
ghost use Rattle.i7_sentences.specs.declared.spoken.Spoken.{Spoken as Phrase};

use i7_conditions::{Found, Scope, Step, condition_said, description_said};
use i7_sentences::Spoken;
use play_meaning::tree::{Condition, Description};
use std::alloc::{AllocError, Global};

/// `if` with this condition.
fn if_so(condition: Found<Condition>) -> Found<Step>
    ensures { found_block result ≡ one block.If (found_condition condition) }
{
    match condition {
        Found::Read(condition) => Found::Read(Step::If(condition)),
        Found::TooMany => Found::TooMany,
        Found::Unread => Found::Unread,
    }
}

/// `otherwise if` with this condition.
fn otherwise_if_so(condition: Found<Condition>) -> Found<Step>
    ensures { found_block result ≡ one block.OtherwiseIf (found_condition condition) }
{
    match condition {
        Found::Read(condition) => Found::Read(Step::OtherwiseIf(condition)),
        Found::TooMany => Found::TooMany,
        Found::Unread => Found::Unread,
    }
}

/// `repeat` through these.
fn repeated(those: Found<Description>) -> Found<Step>
    ensures { found_block result ≡ one block.Repeat (found_described those) }
{
    match those {
        Found::Read(those) => Found::Read(Step::Repeat(those)),
        Found::TooMany => Found::TooMany,
        Found::Unread => Found::Unread,
    }
}

/// What a phrase says that others belong to, by its words.
fn block_said(
    alloc: Global,
    scope: &Scope<'_>,
    said: &Spoken,
) -> Result<Option<Found<Step>>, AllocError>
    requires few { length (scope_of scope.now).repeats ≤ 255 }
    ensures { IfOk result (λ found. option_map found_block found ≡ block_said (scope_of scope.now) said.now) }
{
    let found = match said {
        Spoken::If(words) => if_so(condition_said(alloc, scope, words.as_slice())?),
        Spoken::OtherwiseIf(words) => {
            otherwise_if_so(condition_said(alloc, scope, words.as_slice())?)
        }
        Spoken::Otherwise => Found::Read(Step::Otherwise),
        Spoken::Repeat { through, .. } => {
            repeated(description_said(alloc, scope, through.as_slice())?)
        }
        _ => return Ok(None),
    };
    Ok(Some(found))
}

/// What a phrase says that others belong to, none of another. One with an object or a description beyond the limits is too
/// many.
pub fn block_of(
    alloc: Global,
    scope: &Scope<'_>,
    said: &Spoken,
) -> Result<Option<Found<Step>>, AllocError>
    requires few { length (scope_of scope.now).repeats ≤ 255 }
    ensures { IfOk result (λ step. IsToldOf (is_block said.now) (Opens (scope_of scope.now) said.now) block_is_over (option_map found_block step)) }
{
    block_said(alloc, scope, said)
}

/// A phrase says one thing at most of what belongs to it.
pub fn one_block_is_opened()
    ensures { (s : Names) (said : Phrase) (b c : block.Block) → Opens s said b → Opens s said c → b ≡ c }
{}
