//! The values of kinds of value: those of the first list of them.
ghost use Rattle.std.specs.Prelude.{◌≡◌};
ghost use Rattle.i7_claims.specs.Listings.{values_listed};

use crate::claim::{Claim, Fact};
use world_meaning::TextBytes;

/// The values of the kind of value of this name, in order, as they are written; none where no claim lists them.
pub fn values_listed<'a>(claims: &'a [Claim], kind: &[u8]) -> &'a [TextBytes]
    ensures { result.now ≡ values_listed claims.now kind.now }
{
    let mut rest = claims;
    while let [claim, after @ ..] = rest {
        if let Fact::Values(listing) = &claim.fact {
            if kind == listing.kind.as_slice() {
                return listing.values.as_slice();
            }
        }
        rest = after;
    }
    &[]
}
