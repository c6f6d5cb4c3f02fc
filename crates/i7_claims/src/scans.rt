//! Scans over claims for the lowest line that shows something.
ghost use Rattle.std.specs.Prelude.{◌≡◌};
ghost use Rattle.i7_claims.specs.Scans.{earlier, lower};

/// The lowest line so far, with this one if it shows something.
pub fn lower(shows: bool, line: u32, found: Option<u32>) -> Option<u32>
    ensures { result ≡ lower shows line found }
{
    if !shows {
        return found;
    }
    match found {
        None => Some(line),
        Some(other) => Some(other.min(line)),
    }
}

/// The lower of two lines.
pub fn earlier(first: Option<u32>, second: Option<u32>) -> Option<u32>
    ensures { result ≡ earlier first second }
{
    match first {
        None => second,
        Some(a) => match second {
            None => Some(a),
            Some(b) => Some(a.min(b)),
        },
    }
}
