//! Loading a story: its tables are skipped, so that the counts are known to be in place before memory is
//! taken; then they are read and tested.
ghost use Rattle.std.specs.Prelude.{◌≡◌, IfOk, IfErr};
ghost use Rattle.std.specs.Result.{MatchResult};
ghost use Rattle.story_format.specs.Codes.{AreCodesOf};
ghost use Rattle.story_format.specs.Layout.{tables_layout};
ghost use Rattle.story_format.specs.Reading.{AreAStorys, FailBy, Gives, is_right_file, tables_read, whole};
ghost use Rattle.story_format.specs.Refusals.{IsRefused, is_version};
ghost use Rattle.story_format.specs.Spells.{Spells};
ghost use Rattle.story_format.specs.declared.fault.LoadFault.TheVariants.{Memory};
ghost use Rattle.story_format.specs.declared.tables.Tables.{Tables};

use crate::book_rules::are_ordered;
use crate::checks::are_right;
use crate::codes::codes_of;
use crate::fault::LoadFault;
use crate::number::number16;
use crate::story::Story;
use crate::tables::Tables;
use crate::value_tables::{FIRST_VERSION, SECOND_VERSION};
use crate::writing::MAGIC;
use std::alloc::{AllocError, Global};
use story_code::Verified;

fn is_version(version: u16) -> bool
    ensures { result ≡ is_version version }
{
    version == FIRST_VERSION || version == SECOND_VERSION
}

/// The tables of this version that the bytes are; memory is taken only where the counts are in place.
fn tables_in(alloc: Global, version: u16, body: &[u8]) -> Result<(u16, Tables), LoadFault>
    ensures { Gives result (whole version ((tables_layout version).format.get body.now)) }
{
    match Tables::skip(version, body) {
        None => return Err(LoadFault::Truncated),
        Some([_, ..]) => return Err(LoadFault::TooLong),
        Some([]) => {}
    }
    match Tables::read(alloc, version, body)? {
        None => Err(LoadFault::Truncated),
        Some((tables, _)) => Ok((version, tables)),
    }
}

/// The version of a story's bytes, and their tables.
#[tactic(auto, unfolding(crate::specs::Reading::body_read))]
fn tables_read(alloc: Global, bytes: &[u8]) -> Result<(u16, Tables), LoadFault>
    ensures { Gives result (tables_read bytes.now) }
{
    if bytes.len() < MAGIC.len() {
        return Err(LoadFault::BadMagic);
    }
    let (front, rest) = bytes.split_at(MAGIC.len());
    if front != MAGIC.as_slice() {
        return Err(LoadFault::BadMagic);
    }
    let Some((version, body)) = number16(rest) else {
        return Err(LoadFault::Truncated);
    };
    if !is_version(version) {
        return Err(LoadFault::BadVersion);
    }
    tables_in(alloc, version, body)
}

/// Whether the version is that of the tables, and these say what a story says.
#[tactic(auto, unfolding(crate::specs::Reading::is_right_file))]
fn is_right_file(alloc: Global, version: u16, tables: &Tables) -> Result<bool, AllocError>
    ensures { IfOk result (λ right. right ≡ is_right_file version tables.now) }
{
    Ok(version == tables.version() && are_right(alloc, tables)?)
}

/// The codes of the tables of this version, if these are a story's.
fn codes_in(alloc: Global, version: u16, tables: &Tables) -> Result<Vec<Verified>, LoadFault>
    ensures codes { IfOk result (λ codes. AreCodesOf tables.now codes.items × AreAStorys version tables.now) }
    ensures refused { IfErr result (λ fault. FailBy fault version tables.now) }
{
    if !is_right_file(alloc, version, tables)? {
        return Err(LoadFault::BadTable);
    }
    let Some(codes) = codes_of(alloc, tables)? else {
        return Err(LoadFault::BadCode);
    };
    if !are_ordered(alloc, tables)? {
        return Err(LoadFault::BadOrder);
    }
    Ok(codes)
}

/// The story that the bytes spell. What the counts tell is told before memory is taken.
pub fn load(alloc: Global, bytes: &[u8]) -> Result<Story, LoadFault>
    // What is loaded is the story that the bytes spell.
    ensures found { IfOk result (Spells bytes.now) }

    // What spells a story is loaded, unless memory is refused.
    ensures only { (tables : Tables) → Spells bytes.now tables → MatchResult result (λ story. story ≡ tables) (λ fault. fault ≡ Memory) }

    // Each refusal says what stands in the bytes.
    ensures refused { IfErr result (λ fault. IsRefused fault bytes.now) }
{
    let (version, tables) = tables_read(alloc, bytes)?;
    match codes_in(alloc, version, &tables) {
        Ok(codes) => Ok(Story::new(tables, codes)),
        Err(fault) => {
            drop(tables);
            Err(fault)
        }
    }
}
