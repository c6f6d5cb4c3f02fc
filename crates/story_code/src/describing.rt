//! What an object's description says, in a body.
ghost use Rattle.story_code.specs.Runs.{AreDescribedBy, AreSoundTogether, IsDescription, Tells};
ghost use Rattle.story_code.specs.Steps.{DescriptionIs, SaidByCodeIs, SaidOfIs};

use crate::naming::say;
use crate::plain::read_plain;
use crate::state::RunState;
use crate::verified::Verified;
use play_meaning::{ActionNow, Ground};
use std::alloc::Global;
use world_meaning::{Abandon, ObjNo};

/// What the code of a description says.
fn said_by<G: Ground>(
    alloc: Global,
    ground: &G,
    codes: &[Verified],
    now: &ActionNow,
    number: u16,
) -> Result<Vec<u8>, Abandon>
    requires sound { AreSoundTogether codes.now }
    requires describes { IsDescription codes.now number }
    ensures { Tells (DescriptionIs (G.fixed ground.now) codes.now now.now (G.world ground.now) number) (λ said. said.items) result }
{
    let mut state = RunState::new(number, 0);
    let mut text = Vec::new(alloc);
    match read_plain(alloc, ground, codes, now, &mut state, &mut text) {
        Ok(_) => Ok(text),
        Err(reason) => Err(reason),
    }
}

/// What an object's description says, if it is described.
fn said_of<G: Ground>(
    alloc: Global,
    ground: &G,
    codes: &[Verified],
    now: &ActionNow,
    object: ObjNo,
) -> Result<Vec<u8>, Abandon>
    requires sound { AreSoundTogether codes.now }
    requires described { AreDescribedBy codes.now (G.fixed ground.now) }
    ensures { Tells (SaidByCodeIs (G.fixed ground.now) codes.now now.now (G.world ground.now) object) (λ said. said.items) result }
{
    match ground.description(object) {
        Some(number) => match said_by(alloc, ground, codes, now, number) {
            Ok(said) => Ok(said),
            Err(reason) => Err(reason),
        },
        None => Ok(Vec::new(alloc)),
    }
}

/// What the description of something says, and a line feed; nothing of what isn't described.
pub fn description<G: Ground>(
    alloc: Global,
    ground: &G,
    codes: &[Verified],
    now: &ActionNow,
    object: Option<ObjNo>,
) -> Result<Vec<u8>, Abandon>
    requires sound { AreSoundTogether codes.now }
    requires described { AreDescribedBy codes.now (G.fixed ground.now) }
    ensures { Tells (SaidOfIs (G.fixed ground.now) codes.now now.now (G.world ground.now) object) (λ said. said.items) result }
{
    match object {
        Some(object) if ground.has_description(object) => {
            match said_of(alloc, ground, codes, now, object) {
                Ok(mut said) => {
                    say(&mut said, b"\n")?;
                    Ok(said)
                }
                Err(reason) => Err(reason),
            }
        }
        _ => Ok(Vec::new(alloc)),
    }
}
