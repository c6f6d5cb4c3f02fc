//! Arguments of one byte that stand for something of a few.
ghost use Rattle.std.specs.Prelude.{◌≡◌};
ghost use Rattle.story_code.specs.Fronts.{choice_of, form_of, relation_of, side_of};

use play_meaning::{Asked, Naming};
use world_meaning::Rel;

/// How something is held.
pub fn relation_of(byte: u8) -> Option<Rel>
    ensures { result ≡ relation_of byte }
{
    match byte {
        0 => Some(Rel::In),
        1 => Some(Rel::On),
        2 => Some(Rel::Carried),
        3 => Some(Rel::Worn),
        4 => Some(Rel::Part),
        _ => None,
    }
}

/// How a property is asked.
pub fn side_of(byte: u8) -> Option<Asked>
    ensures { result ≡ side_of byte }
{
    match byte {
        0 => Some(Asked::IsSecond),
        1 => Some(Asked::IsFirst),
        2 => Some(Asked::IsNotSecond),
        3 => Some(Asked::IsNotFirst),
        _ => None,
    }
}

/// How an object is told of.
pub fn form_of(byte: u8) -> Option<Naming>
    ensures { result ≡ form_of byte }
{
    match byte {
        0 => Some(Naming::Plain),
        1 => Some(Naming::Definite),
        2 => Some(Naming::CapitalDefinite),
        3 => Some(Naming::Indefinite),
        4 => Some(Naming::CapitalIndefinite),
        _ => None,
    }
}

/// No or yes.
pub fn choice_of(byte: u8) -> Option<bool>
    ensures { result ≡ choice_of byte }
{
    match byte {
        0 => Some(false),
        1 => Some(true),
        _ => None,
    }
}
