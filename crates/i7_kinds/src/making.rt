//! Kinds and places of objects as a tale has them.
ghost use Rattle.std.specs.Prelude.{◌≡◌, IfOk};
ghost use Rattle.i7_kinds.specs.Bounds.{AreSmallKnowns, AreSmallPlaces, IsSmallPlace};
ghost use Rattle.i7_kinds.specs.Knowns.{kinds_of};

use crate::knowns::{Known, kind_of};
use crate::places::Spot;
use std::alloc::{AllocError, Global};
use world_meaning::{KindNo, ObjNo, Place};

/// The kinds of objects of which this is known.
pub fn kinds_of(alloc: Global, knowns: &[Known]) -> Result<Vec<KindNo>, AllocError>
    requires { AreSmallKnowns knowns.now }
    ensures { IfOk result (λ kinds. kinds.items ≡ kinds_of knowns.now) }
{
    let mut kinds = Vec::new(alloc);
    let mut rest = knowns;
    while let [known, after @ ..] = rest {
        kinds.push(KindNo::new(kind_of(*known) as u8))?;
        rest = after;
    }
    Ok(kinds)
}

fn place_in(spot: Option<Spot>) -> Option<Place>
    requires { IsSmallPlace spot }
    ensures { result ≡ spot }
{
    match spot {
        None => None,
        Some(spot) => Some(Place {
            relation: spot.relation,
            holder: ObjNo::new(spot.holder as u16),
        }),
    }
}

/// These places, as a tale has them.
pub fn places_in(alloc: Global, spots: &[Option<Spot>]) -> Result<Vec<Option<Place>>, AllocError>
    requires { AreSmallPlaces spots.now }
    ensures { IfOk result (λ places. places.items ≡ spots.now) }
{
    let mut places = Vec::new(alloc);
    let mut rest = spots;
    while let [spot, after @ ..] = rest {
        places.push(place_in(*spot))?;
        rest = after;
    }
    Ok(places)
}
