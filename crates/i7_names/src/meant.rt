//! What a name is claimed to stand for, by its number.
ghost use Rattle.std.specs.Prelude.{◌≡◌};
ghost use Rattle.i7_names.specs.Meant.{meaning_as, value_at, value_kind_at};

use crate::numbering::Numbering;
use i7_claims::Standing;
use i7_conditions::Meaning;
use play_meaning::tree::Side;
use world_meaning::{KindNo, ObjNo};

/// A kind of value that has some.
fn value_kind_at(numbering: &Numbering<'_>, kind: Option<u8>) -> Option<Meaning>
    ensures { result ≡ value_kind_at numbering.now kind }
{
    match kind {
        None => None,
        Some(kind) => {
            if numbering.value_count(kind) > 0 {
                Some(Meaning::ValueKind(kind))
            } else {
                None
            }
        }
    }
}

/// The value at a place that its kind has, if a byte holds it.
fn value_at(numbering: &Numbering<'_>, place: usize, kind: Option<u8>) -> Option<Meaning>
    ensures { result ≡ value_at numbering.now place kind }
{
    match kind {
        None => None,
        Some(kind) => {
            if place < numbering.value_count(kind) && place <= 255 {
                Some(Meaning::Value(kind, place as u8))
            } else {
                None
            }
        }
    }
}

/// What a name that is claimed to be this stands for.
pub fn meaning_as(numbering: &Numbering<'_>, name: &[u8], standing: &Standing) -> Option<Meaning>
    ensures { result ≡ meaning_as numbering.now name.now standing.now }
{
    match standing {
        Standing::Reserved => None,
        Standing::Kind => Some(Meaning::Kind(KindNo::new(numbering.kind(name)?))),
        Standing::First(_) => Some(Meaning::Quality(numbering.quality(name)?, Side::First)),
        Standing::Second(first) => {
            let property = numbering.quality(first.as_slice())?;
            Some(Meaning::Quality(property, Side::Second))
        }
        Standing::Number => Some(Meaning::Number(numbering.number(name)?)),
        Standing::Variable => Some(Meaning::Variable(numbering.variable(name)?)),
        Standing::Scene(_) => Some(Meaning::Scene(numbering.scene(name)?)),
        Standing::Object => Some(Meaning::Object(ObjNo::new(numbering.object(name)?))),
        Standing::ValueKind => value_kind_at(numbering, numbering.value_kind(name)),
        Standing::Value(value) => {
            value_at(
                numbering,
                value.place,
                numbering.value_kind(value.kind.as_slice()),
            )
        }
    }
}
