//! The names of the kinds: the built-in ones, then the author's in the order of their sentences.
ghost use Rattle.std.specs.Prelude.{◌≡◌, IfOk, OnOk};
ghost use Rattle.i7_claims.specs.KindNames.{kind_names, with_kind};

use crate::claim::{Claim, Fact};
use crate::sorts::built_in_kinds;
use object_words::Strings;
use std::alloc::{AllocError, Global};

fn add_kind(alloc: Global, names: &mut Strings, fact: &Fact) -> Result<(), AllocError>
    ensures { OnOk result (names.new ≡ with_kind names.old fact.now) }
{
    match fact {
        Fact::Lies(lying) => names.mention(alloc, lying.kind.as_slice()),
        _ => Ok(()),
    }
}

/// The names of the kinds, in the order of their numbers.
pub fn kind_names(alloc: Global, claims: &[Claim]) -> Result<Strings, AllocError>
    ensures { IfOk result (λ names. names ≡ kind_names claims.now) }
{
    let mut names = built_in_kinds(alloc)?;
    let mut rest = claims;
    while let [claim, after @ ..] = rest {
        add_kind(alloc, &mut names, &claim.fact)?;
        rest = after;
    }
    Ok(names)
}
