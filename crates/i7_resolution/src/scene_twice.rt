//! Sentences that say of a scene what one before them says: when it begins, or when it ends.
ghost use Rattle.std.specs.Prelude.{◌≡◌, reverse, IfOk, OnOk};
ghost use Rattle.world_meaning.specs.Declarations.{is_among};
ghost use Rattle.i7_rules.specs.Knowns.{known_of};
ghost use Rattle.i7_rules.specs.RuleScans.{IsLow};
ghost use Rattle.i7_resolution.specs.SceneChangeList.{change_lent, changes_lent, placed};
ghost use Rattle.i7_resolution.specs.SceneScans.{edge_number, edge_of, mention_edge, twice_at};
ghost use Rattle.i7_resolution.specs.SourceScenes.{IsTwice};

use crate::scene_change_list::ChangeAt;
use i7_rules::{Known, scene_of};
use i7_sentences::{SceneEdge, lower_of};
use std::alloc::{AllocError, Global};

/// The begin or the end of a scene, by a number of its own.
fn edge_number(edge: SceneEdge, scene: u8) -> u16
    ensures { result ≡ edge_number edge scene }
{
    match edge {
        SceneEdge::Begins => 2 * u16::from(scene),
        SceneEdge::Ends => 2 * u16::from(scene) + 1,
    }
}

/// That of which a sentence tells, if its words name a scene.
fn edge_of(
    alloc: Global,
    known: &Known<'_>,
    change: &ChangeAt<'_>,
) -> Result<Option<u16>, AllocError>
    ensures { IfOk result (λ edge. edge ≡ edge_of (known_of known.now) (change_lent change.now)) }
{
    match scene_of(alloc, known, change.said.scene.as_slice())? {
        None => Ok(None),
        Some(scene) => Ok(Some(edge_number(change.said.edge, scene))),
    }
}

fn is_among(edge: u16, seen: &[u16]) -> bool
    ensures { result ≡ is_among edge seen.now }
{
    seen.iter().any(|other| edge == *other)
}

/// Mentions what a sentence at this line tells of, and tells the line if that was mentioned before.
fn twice_at(seen: &mut Vec<u16>, line: u32, edge: Option<u16>) -> Result<Option<u32>, AllocError>
    ensures told { IfOk result (λ told. told ≡ twice_at seen.old.items line edge) }
    ensures seen { OnOk result (seen.new.items ≡ mention_edge seen.old.items edge) }
{
    match edge {
        None => Ok(None),
        Some(edge) => {
            if is_among(edge, seen.as_slice()) {
                Ok(Some(line))
            } else {
                seen.push(edge)?;
                Ok(None)
            }
        }
    }
}

/// The lowest line of a sentence that says of a scene what one before it says.
pub fn change_twice(
    alloc: Global,
    known: &Known<'_>,
    changes: &[ChangeAt<'_>],
) -> Result<Option<u32>, AllocError>
    ensures { IfOk result (λ low. IsLow (IsTwice (known_of known.now)) (placed (reverse (changes_lent changes.now))) low) }
{
    let mut seen = Vec::new(alloc);
    let mut low = None;
    let mut rest = changes;
    while let [change, behind @ ..] = rest {
        let edge = edge_of(alloc, known, change)?;
        low = lower_of(low, twice_at(&mut seen, change.line, edge)?);
        rest = behind;
    }
    Ok(low)
}
