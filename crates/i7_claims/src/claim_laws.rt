//! Laws: the lines that scans for names find are the lowest that show what is looked for.
ghost use Rattle.std.specs.Prelude.{List};
ghost use Rattle.i7_claims.specs.NameScans.{book_twice, name_twice, list_twice};
ghost use Rattle.i7_claims.specs.Scans.{IsLowest, ShownBy};
ghost use Rattle.i7_claims.specs.Sorts.{IsListTooLong, IsTooMany, list_too_long, too_many_as};
ghost use Rattle.i7_claims.specs.Standings.{IsBookTwice, IsListedTwice, IsTwice};
ghost use Rattle.i7_claims.specs.declared.claim.Claim.{Claim};
ghost use Rattle.i7_claims.specs.declared.sorts.Sort.{Sort};

/// A name that stands for two things is found at its lowest line.
pub fn names_twice_are_found()
    ensures { (claims : List Claim) → IsLowest (ShownBy (λ before c. IsTwice before c.fact) claims) (name_twice claims) }
{}

/// A rulebook whose name is another's is found at its lowest line.
pub fn books_twice_are_found()
    ensures { (claims : List Claim) → IsLowest (ShownBy (λ before c. IsBookTwice before c.fact) claims) (book_twice claims) }
{}

/// A name that is one too many of its sort is found at its lowest line.
pub fn names_too_many_are_found()
    ensures { (sort : Sort) (claims : List Claim) → IsLowest (ShownBy (λ before c. IsTooMany sort before c.fact) claims) (too_many_as sort claims) }
{}

/// Where the values of a kind of value are listed again is found at its lowest line.
pub fn lists_twice_are_found()
    ensures { (claims : List Claim) → IsLowest (ShownBy (λ before c. IsListedTwice before c.fact) claims) (list_twice claims) }
{}

/// A list of more values than a kind of value may have is found at its lowest line.
pub fn long_lists_are_found()
    ensures { (claims : List Claim) → IsLowest (ShownBy (λ before c. IsListTooLong c.fact) claims) (list_too_long claims) }
{}
