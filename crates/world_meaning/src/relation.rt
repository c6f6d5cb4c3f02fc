//! The numbers of relations, in story files and wherever two are compared.
ghost use Rattle.std.specs.Prelude.{◌≡◌};
ghost use Rattle.world_meaning.specs.Relations.{relation_number};

use crate::Rel;

/// The number of a relation.
pub fn relation_number(relation: Rel) -> u8
    ensures { result ≡ relation_number relation }
{
    match relation {
        Rel::In => 0,
        Rel::On => 1,
        Rel::Carried => 2,
        Rel::Worn => 3,
        Rel::Part => 4,
    }
}
