//! When the scenes of a source begin and end (*Writing with Inform*, 10.3), or why the source is refused for that.
ghost use Rattle.std.specs.Prelude.{◌≡◌, map, reverse, IfOk};
ghost use Rattle.i7_rules.specs.Knowns.{known_of};
ghost use Rattle.i7_resolution.specs.SceneChangeList.{change_lent, changes_lent};
ghost use Rattle.i7_resolution.specs.SceneScans.{IsSoFar, edged, refused_or, so_far_told, state_of, untold, with_edge, with_found};
ghost use Rattle.i7_resolution.specs.SourceScenes.{IsScenesFound};

use crate::scene_change::{SceneTold, change_of};
use crate::scene_change_list::{ChangeAt, changes_in};
use crate::scene_twice::change_twice;
use i7_conditions::{Found, one_condition_is_meant};
use i7_rules::Known;
use i7_sentences::{SceneEdge, Sentence, lower_of};
use play_meaning::tree::{Condition, MeantScene};
use std::alloc::{AllocError, Global};
use world_meaning::{Fault, FaultCode};

/// When the scenes of a source begin and end.
#[derive(Drop)]
pub enum ScenesFound {
    /// The scenes, by number.
    Says(Vec<MeantScene>),
    /// The source is refused for what its sentences say of them.
    Refused(Fault),
}

/// What is found of a source's first sentences that say when scenes begin and end.
#[derive(Drop)]
struct SoFar {
    /// The scenes, with the conditions that are understood and within their limits.
    scenes: Vec<MeantScene>,
    /// The lowest line of a sentence that isn't understood.
    unknown: Option<u32>,
    /// The lowest line of one whose condition holds more than the language allows.
    too_many: Option<u32>,
}

/// The scenes, none of which begins or ends.
fn untold(alloc: Global, recurring: &[bool]) -> Result<Vec<MeantScene>, AllocError>
    ensures { IfOk result (λ scenes. scenes.items ≡ map untold recurring.now) }
{
    let mut scenes = Vec::new(alloc);
    let mut rest = recurring;
    while let [recurs, behind @ ..] = rest {
        scenes.push(MeantScene {
            recurs: *recurs,
            begins: None,
            ends: None,
        })?;
        rest = behind;
    }
    Ok(scenes)
}

/// Has a scene begin, or end, on this condition.
fn set_edge(scene: &mut MeantScene, edge: SceneEdge, condition: Condition)
    ensures { scene.new ≡ edged edge condition scene.old }
{
    match edge {
        SceneEdge::Begins => scene.begins = Some(condition),
        SceneEdge::Ends => scene.ends = Some(condition),
    }
}

/// The same of the scene of this number, if it is there.
fn set_edge_of(scenes: &mut Vec<MeantScene>, number: u8, edge: SceneEdge, condition: Condition)
    ensures { scenes.new.items ≡ with_edge scenes.old.items number edge condition }
{
    match scenes.get_mut(usize::from(number)) {
        None => {}
        Some(scene) => set_edge(scene, edge, condition),
    }
}

/// With a sentence that is found to tell so much.
fn with_found(so_far: SoFar, change: &ChangeAt<'_>, found: Found<SceneTold>) -> SoFar
    ensures { state_of result ≡ with_found (state_of so_far) (change_lent change.now) found }
{
    let mut next = so_far;
    match found {
        Found::Read(told) => {
            set_edge_of(
                &mut next.scenes,
                told.scene,
                change.said.edge,
                told.condition,
            )
        }
        Found::TooMany => next.too_many = lower_of(next.too_many, Some(change.line)),
        Found::Unread => next.unknown = lower_of(next.unknown, Some(change.line)),
    }
    next
}

/// What is found of all of them.
fn read_changes(
    alloc: Global,
    known: &Known<'_>,
    recurring: &[bool],
    changes: &[ChangeAt<'_>],
) -> Result<SoFar, AllocError>
    ensures { IfOk result (λ so_far. IsSoFar (known_of known.now) recurring.now (reverse (changes_lent changes.now)) (state_of so_far)) }
{
    one_condition_is_meant();
    let mut so_far = SoFar {
        scenes: untold(alloc, recurring)?,
        unknown: None,
        too_many: None,
    };
    let mut rest = changes;
    while let [change, behind @ ..] = rest {
        let found = change_of(alloc, known, change.said)?;
        so_far = with_found(so_far, change, found);
        rest = behind;
    }
    Ok(so_far)
}

/// Refused with the code at the line, if there is one, and else the next answer.
fn refused_or(code: FaultCode, line: Option<u32>, next: ScenesFound) -> ScenesFound
    ensures { result ≡ refused_or code line next }
{
    match line {
        None => next,
        Some(line) => ScenesFound::Refused(Fault { code, line }),
    }
}

/// What is told by the lowest line of a sentence that says what one before it says, and by what else is found: the first refusal
/// in order, or all scenes.
fn told(twice: Option<u32>, so_far: SoFar) -> ScenesFound
    ensures { result ≡ so_far_told twice so_far }
{
    let said = ScenesFound::Says(so_far.scenes);
    let limited = refused_or(FaultCode::TooMany, so_far.too_many, said);
    let known = refused_or(FaultCode::UnknownName, so_far.unknown, limited);
    refused_or(FaultCode::Twice, twice, known)
}

/// When the scenes of a source begin and end, of each of which it is declared whether it may happen again, or what refuses the
/// source for that, at the lowest line of a sentence that says of a scene what one before it says (C9), else of one whose words
/// name no scene, or whose condition the names allow no reading of (C7), and else of one whose condition holds more than the
/// language allows (C12).
pub fn scenes_of(
    alloc: Global,
    known: &Known<'_>,
    recurring: &[bool],
    sentences: &[Sentence],
) -> Result<ScenesFound, AllocError>
    ensures { IfOk result (λ found. IsScenesFound (known_of known.now) recurring.now sentences.now found) }
{
    let changes = changes_in(alloc, sentences)?;
    let twice = change_twice(alloc, known, changes.as_slice())?;
    let so_far = read_changes(alloc, known, recurring, changes.as_slice())?;
    Ok(told(twice, so_far))
}
