//! Whether conditions fit.
ghost use Rattle.std.specs.Prelude.{◌≡◌};
ghost use Rattle.std.specs.List.{list_all};
ghost use Rattle.play_meaning.specs.Meant.{basic_meant, clause_meant, condition_meant, conjunction_meant};
ghost use Rattle.story_code.specs.Fits.{condition_fits};

use crate::fitting::number::numbers_fit;
use crate::fitting::object::{adjective_fits, description_fits, object_fits, objects_fit};
use play_meaning::Counts;
use play_meaning::tree::{Basic, Clause, Condition, Conjunction};

/// Whether a condition fits inside so many loops, with so much room for operands.
#[tactic(auto, using(crate::proofs::FitLists::conditions_tell))]
pub(crate) fn condition_fits(counts: &Counts, loops: u8, condition: &Condition, room: u8) -> bool
    ensures { result ≡ condition_fits counts.now loops (condition_meant condition.now) room }
{
    conjunction_fits(counts, loops, &condition.first, room)
        && conjunctions_fit(
            counts,
            loops,
            condition.rest.as_slice(),
            room.saturating_sub(1),
        )
}

/// Whether each of these fits.
fn conjunctions_fit(counts: &Counts, loops: u8, conjunctions: &[Conjunction], room: u8) -> bool
    ensures { result ≡ list_all (λ c. condition_fits counts.now loops (conjunction_meant c) room) conjunctions.now }
{
    conjunctions.iter().all(|conjunction| conjunction_fits(counts, loops, conjunction, room))
}

/// Whether clauses that are joined by `and` fit.
#[tactic(auto, using(crate::proofs::FitLists::conditions_tell))]
fn conjunction_fits(counts: &Counts, loops: u8, conjunction: &Conjunction, room: u8) -> bool
    ensures { result ≡ condition_fits counts.now loops (conjunction_meant conjunction.now) room }
{
    clause_fits(counts, loops, &conjunction.first, room)
        && clauses_fit(
            counts,
            loops,
            conjunction.rest.as_slice(),
            room.saturating_sub(1),
        )
}

/// Whether each of these fits.
fn clauses_fit(counts: &Counts, loops: u8, clauses: &[Clause], room: u8) -> bool
    ensures { result ≡ list_all (λ c. condition_fits counts.now loops (clause_meant c) room) clauses.now }
{
    clauses
        .iter()
        .all(|clause| clause_fits(counts, loops, clause, room))
}

/// Whether a clause fits: `not` takes no room.
#[tactic(auto, using(crate::proofs::FitLists::conditions_tell))]
fn clause_fits(counts: &Counts, loops: u8, clause: &Clause, room: u8) -> bool
    ensures { result ≡ condition_fits counts.now loops (clause_meant clause.now) room }
{
    basic_fits(counts, loops, &clause.basic, room)
}

/// Whether what is asked fits.
#[tactic(auto, unfolding(crate::specs::Fits::condition_fits))]
fn basic_fits(counts: &Counts, loops: u8, basic: &Basic, room: u8) -> bool
    ensures { result ≡ condition_fits counts.now loops (basic_meant basic.now) room }
{
    match basic {
        Basic::IsSo(object, adjective) => adjective_fits(counts, loops, object, *adjective, room),
        Basic::IsOne(object, description) => {
            description_fits(counts, loops, loops, object, description, room)
        }
        Basic::IsSame(a, b) => objects_fit(counts, loops, a, b, room),
        Basic::IsHeld(object, _, holder) => objects_fit(counts, loops, object, holder, room),
        Basic::IsHeldByOne(object, _, description) => {
            description_fits(counts, loops, loops, object, description, room)
        }
        Basic::Has(holder, object) => {
            objects_fit(counts, loops, object, holder, room)
                && objects_fit(counts, loops, object, holder, room.saturating_sub(1))
        }
        Basic::Encloses(holder, object) => objects_fit(counts, loops, holder, object, room),
        Basic::HasDescription(object) => object_fits(counts, loops, object, room),
        Basic::Equals(a, b) => numbers_fit(counts, loops, a, b, room),
        Basic::IsLess(a, b) => numbers_fit(counts, loops, a, b, room),
        Basic::IsAtMost(a, b) => numbers_fit(counts, loops, a, b, room),
        Basic::Happens(scene) => (*scene as u16) < counts.scenes && room > 0,
        Basic::InDarkness => room > 0,
    }
}
