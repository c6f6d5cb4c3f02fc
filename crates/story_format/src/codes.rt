//! The codes of a story's tables, verified for what they are for.
ghost use Rattle.std.specs.Prelude.{◌≡◌, IfOk, MatchOption};
ghost use Rattle.story_format.specs.Codes.{AreCodesOf, uses_of};
ghost use Rattle.story_format.specs.Soundness.{AreSound};

use crate::checks::{codes_named, heads_named};
use crate::counts::counts_of;
use crate::rule_codes::add_uses;
use crate::soundness::{are_all_named, are_in_turn};
use crate::tables::Tables;
use code_table::table_of;
use play_meaning::Use;
use std::alloc::{AllocError, Global};
use story_code::Verified;

/// What the codes are for that objects, rules and scenes name: so many descriptions, the rules' tests and bodies, and the scenes'
/// tests.
fn uses_of(alloc: Global, tables: &Tables) -> Result<Vec<Use>, AllocError>
    ensures { IfOk result (λ uses. uses.items ≡ uses_of tables.now) }
{
    let described = codes_named(alloc, tables.objects.as_slice())?;
    let mut uses = Vec::new(alloc);
    uses.resize(described.len(), Use::Describing)?;
    add_uses(&mut uses, &tables.rules)?;
    Ok(uses)
}

/// The codes, each verified for what it is for, if they are a table of which the objects, the rules and the scenes name the first
/// in turn, and everything is named.
pub fn codes_of(alloc: Global, tables: &Tables) -> Result<Option<Vec<Verified>>, AllocError>
    ensures { IfOk result (λ found. MatchOption found (AreSound tables.now → ⊥) (λ codes. AreCodesOf tables.now codes.items × AreSound tables.now)) }
{
    if !are_in_turn(heads_named(alloc, tables)?.as_slice()) {
        return Ok(None);
    }
    let uses = uses_of(alloc, tables)?;
    let bytes = tables.codes.as_slice();
    let Some(codes) = table_of(alloc, &counts_of(tables), uses.as_slice(), bytes)? else {
        return Ok(None);
    };
    if !are_all_named(alloc, tables, codes.as_slice())? {
        return Ok(None);
    }
    Ok(Some(codes))
}
