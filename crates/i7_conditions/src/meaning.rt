//! What a name may stand for.
use play_meaning::tree::Side;
use world_meaning::{KindNo, ObjNo};

/// What a name stands for, by its number.
#[derive(Clone, Copy, Debug)]
pub enum Meaning {
    Object(ObjNo),
    Kind(KindNo),
    /// An either-or property, by its first name or its second.
    Quality(u8, Side),
    /// A number property.
    Number(u8),
    Variable(u8),
    Scene(u8),
    /// A kind of value.
    ValueKind(u8),
    /// A value, by its kind of value and its number among the values of that.
    Value(u8, u8),
}
