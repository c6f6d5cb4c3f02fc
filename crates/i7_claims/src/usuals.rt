//! What sentences claim that objects of a kind usually are.
ghost use Rattle.std.specs.Prelude.{◌≡◌, ◌++◌, ◌∷◌, [], map, IfOk, OnOk};
ghost use Rattle.i7_claims.specs.Claims.{claimed, kind_or, usual, usual_claims, usual_kind, usual_quality, usually_claims};
ghost use Rattle.i7_claims.specs.NameScans.{IsShort, standing_at};
ghost use Rattle.i7_claims.specs.declared.claim.Fact.TheVariants.{Unread};

use crate::claim::{Claim, Fact, Quality, Usual, Value};
use crate::claiming::key_text;
use crate::plurals::kind_named;
use crate::standings::Known;
use crate::wording::{What, usual_said};
use i7_sentences::Name;
use std::alloc::{AllocError, Global};
use world_meaning::TextBytes;

/// Adds that words name nothing.
pub fn add_unread(
    alloc: Global,
    claims: &mut Vec<Claim>,
    words: &[u8],
    line: u32,
) -> Result<(), AllocError>
    ensures { OnOk result (claims.new.items ≡ claims.old.items ++ claimed (Unread words.now) line ∷ []) }
{
    let words = TextBytes::copied(alloc, words)?;
    claims.push(Claim {
        fact: Fact::Unread(words),
        line,
    })?;
    Ok(())
}

/// Adds that a property of objects of a kind usually has a value.
pub fn add_usual(
    alloc: Global,
    claims: &mut Vec<Claim>,
    kind: &[u8],
    property: &[u8],
    value: Value,
    line: u32,
) -> Result<(), AllocError>
    ensures { OnOk result (claims.new.items ≡ claims.old.items ++ usual kind.now line property.now value ∷ []) }
{
    let kind = TextBytes::copied(alloc, kind)?;
    let property = TextBytes::copied(alloc, property)?;
    claims.push(Claim {
        fact: Fact::Usually(Usual {
            kind,
            property,
            value,
        }),
        line,
    })?;
    Ok(())
}

fn add_usuals(
    alloc: Global,
    claims: &mut Vec<Claim>,
    kind: &[u8],
    qualities: &[Quality],
    line: u32,
) -> Result<(), AllocError>
    ensures { OnOk result (claims.new.items ≡ claims.old.items ++ map (usual_quality kind.now line) qualities.now) }
{
    let mut rest = qualities;
    while let [quality, after @ ..] = rest {
        let property = quality.property.as_slice();
        add_usual(alloc, claims, kind, property, quality.value, line)?;
        rest = after;
    }
    Ok(())
}

fn add_all(
    alloc: Global,
    claims: &mut Vec<Claim>,
    kind: &[u8],
    what: &Option<What>,
    words: &[u8],
    line: u32,
) -> Result<(), AllocError>
    ensures { OnOk result (claims.new.items ≡ claims.old.items ++ usual_claims kind.now what.now words.now line) }
{
    match what {
        None => add_unread(alloc, claims, words, line),
        Some(what) => add_usuals(alloc, claims, kind, what.qualities.as_slice(), line),
    }
}

/// The kind that a name says, in the plural too.
fn kind_or(kind: Option<TextBytes>, name: TextBytes) -> TextBytes
    ensures { result ≡ kind_or kind name }
{
    match kind {
        None => name,
        Some(kind) => kind,
    }
}

/// The kind of whose objects something is usual.
pub fn usual_kind(alloc: Global, known: &Known<'_>, kind: &Name) -> Result<TextBytes, AllocError>
    ensures { IfOk result (λ found. found ≡ usual_kind (standing_at known.now) kind.now) }
{
    let name = key_text(alloc, kind)?;
    let named = kind_named(alloc, known, name.as_slice())?;
    Ok(kind_or(named, name))
}

/// Adds what objects of a kind usually are.
pub fn add_usually(
    alloc: Global,
    known: &Known<'_>,
    most: usize,
    claims: &mut Vec<Claim>,
    kind: &Name,
    words: &[u8],
    line: u32,
) -> Result<(), AllocError>
    requires short { IsShort most (standing_at known.now) }
    ensures { OnOk result (claims.new.items ≡ claims.old.items ++ usually_claims (standing_at known.now) kind.now words.now line) }
{
    let kind = usual_kind(alloc, known, kind)?;
    let what = usual_said(alloc, known, most, words)?;
    add_all(alloc, claims, kind.as_slice(), &what, words, line)
}
