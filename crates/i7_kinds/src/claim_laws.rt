//! Laws: the lines that scans over claims find are the lowest that show what is looked for, and what is described is written.
ghost use Rattle.std.specs.Prelude.{ℕ, Decides, List, Option};
ghost use Rattle.i7_kinds.specs.Doors.{IsDoorDemanded, IsToldAgain, door_twice, doors_of};
ghost use Rattle.i7_claims.specs.Numbers.{has_name};
ghost use Rattle.i7_kinds.specs.KindClaims.{IsCycle, IsKindTooMany, IsUnknown, kind_cycle, kind_too_many, unknown_kind};
ghost use Rattle.i7_kinds.specs.LongNames.{IsLonger, longer_name};
ghost use Rattle.i7_kinds.specs.Places.{IsHolderCycle, IsSecond, holder_cycle, second_place};
ghost use Rattle.i7_claims.specs.Scans.{IsLowest, ShownBy};
ghost use Rattle.i7_kinds.specs.Knowns.{Scope};
ghost use Rattle.i7_kinds.specs.Values.{IsContrary, told_by, value_twice, values_by};
ghost use Rattle.i7_kinds.specs.Written.{DescriptionsAreWritten};
ghost use Rattle.i7_kinds.specs.declared.values.Bearer.{Bearer};
ghost use Rattle.i7_claims.specs.declared.claim.Claim.{Claim};

/// A kind that isn't there is found at the lowest line that names it.
pub fn unknown_kinds_are_found()
    ensures { (names : List (List ℕ)) (claims : List Claim) → IsLowest (ShownBy (λ before c. IsUnknown names c.fact) claims) (unknown_kind names claims) }
{}

/// A kind that closes a cycle with those before it is found at its lowest line.
pub fn cycles_are_found()
    ensures { (names : List (List ℕ)) (claims : List Claim) → IsLowest (ShownBy (λ before c. IsCycle names before c.fact) claims) (kind_cycle names claims) }
{}

/// A kind that is one too many is found at its lowest line.
pub fn kinds_too_many_are_found()
    ensures { (claims : List Claim) → IsLowest (ShownBy (λ before c. IsKindTooMany before c.fact) claims) (kind_too_many claims) }
{}

/// A name with more bytes than this is found at its lowest line.
pub fn longer_names_are_found()
    ensures { (most : ℕ) (claims : List Claim) → IsLowest (ShownBy (λ before c. IsLonger most c.fact) claims) (longer_name most claims) }
{}

/// A second place of an object is found at its lowest line.
pub fn second_places_are_found()
    ensures { (objects : List (List ℕ)) (claims : List Claim) → IsLowest (ShownBy (λ before c. IsSecond objects before c.fact) claims) (second_place objects claims) }
{}

/// A place that closes a cycle of holders is found at its lowest line.
pub fn holder_cycles_are_found()
    ensures { (objects : List (List ℕ)) (claims : List Claim) → IsLowest (ShownBy (λ before c. IsHolderCycle objects before c.fact) claims) (holder_cycle objects claims) }
{}

/// The objects that are told of as doors are those of which some sentence demands a door, wherever it stands.
pub fn doors_are_those_demanded()
    ensures { (kinds : List (List ℕ)) (parents : List (Option ℕ)) (claims : List Claim) (object : List ℕ)
        → Decides (has_name (doors_of kinds parents claims) object) (IsDoorDemanded kinds parents claims object) }
{}

/// A sentence that tells the rooms of a door again is found at its lowest line.
pub fn doors_twice_are_found()
    ensures { (claims : List Claim) → IsLowest (ShownBy (λ before c. IsToldAgain before c.fact) claims) (door_twice claims) }
{}

/// Another value of a property of an object, of what is usual of a kind, or of a variable is found at its lowest line.
pub fn values_twice_are_found()
    ensures { (bearer : Bearer) (scope : Scope) (claims : List Claim)
        → IsLowest (ShownBy (λ before c. IsContrary (values_by bearer scope before) (told_by bearer scope c.fact)) claims) (value_twice bearer scope claims) }
{}

/// The description of an object of a tale stands in one of the sentences that mean the tale.
pub fn descriptions_are_written()
    ensures { DescriptionsAreWritten }
{}
