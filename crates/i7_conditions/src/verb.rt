//! What an object does to another: `carries`, `wears`, `has` and `encloses`.
ghost use Rattle.std.specs.Prelude.{◌≡◌};
ghost use Rattle.play_meaning.specs.Meant.{basic_meant, object_meant};
ghost use Rattle.i7_conditions.specs.Clauses.{done_by, spelling};

use play_meaning::tree::{Basic, Referent};
use world_meaning::Rel;

/// A verb between two objects.
#[derive(Clone, Copy)]
pub enum Verb {
    Carries,
    Wears,
    /// Carries or wears.
    Has,
    Encloses,
}

/// How the verb is spelled.
pub fn spelling(verb: Verb) -> &'static [u8]
    ensures { result.now ≡ spelling verb }
{
    match verb {
        Verb::Carries => b"carries",
        Verb::Wears => b"wears",
        Verb::Has => b"has",
        Verb::Encloses => b"encloses",
    }
}

/// What is asked where the first object does so to the second.
pub fn done_by(verb: Verb, holder: Referent, object: Referent) -> Basic
    ensures { basic_meant result ≡ done_by verb (object_meant holder) (object_meant object) }
{
    match verb {
        Verb::Carries => Basic::IsHeld(object, Rel::Carried, holder),
        Verb::Wears => Basic::IsHeld(object, Rel::Worn, holder),
        Verb::Has => Basic::Has(holder, object),
        Verb::Encloses => Basic::Encloses(holder, object),
    }
}
