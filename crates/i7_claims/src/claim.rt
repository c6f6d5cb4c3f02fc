//! Claims: what sentences state of names, each with its line.
use world_meaning::{Listed, Rel, TextBytes};

/// What a name stands for.
#[derive(Drop)]
pub enum Standing {
    /// An object or a number, as a word of the language.
    Reserved,
    Kind,
    /// An either-or property, as its first name; and its second name, if it has one.
    First(Option<TextBytes>),
    /// The either-or property of this first name, as its second.
    Second(TextBytes),
    Number,
    Variable,
    /// A scene that may happen again, or may not.
    Scene(bool),
    Object,
    ValueKind,
    Value(NamedValue),
}

/// A value, by its kind of value and its place among that kind's values, from 0.
#[derive(Drop)]
pub struct NamedValue {
    pub kind: TextBytes,
    pub place: usize,
}

/// A name stands for this.
#[derive(Drop)]
pub struct Naming {
    pub name: TextBytes,
    pub standing: Standing,
}

/// A kind lies under another.
#[derive(Drop)]
pub struct Lying {
    pub kind: TextBytes,
    pub parent: TextBytes,
}

/// A kind has a property.
#[derive(Drop)]
pub struct Grant {
    pub kind: TextBytes,
    pub property: TextBytes,
}

/// The values of a kind of value, in order, as they are written.
#[derive(Drop)]
pub struct Listing {
    pub kind: TextBytes,
    pub values: Listed<TextBytes>,
}

/// An object is demanded to be of a kind.
#[derive(Drop)]
pub struct Demand {
    pub object: TextBytes,
    pub kind: TextBytes,
}

/// A holder holds a thing.
#[derive(Drop)]
pub struct Placing {
    pub thing: TextBytes,
    pub relation: Rel,
    pub holder: TextBytes,
}

/// What an adjective says: an either-or property, by its first name, or a kind of value has this value.
#[derive(Drop)]
pub struct Quality {
    pub property: TextBytes,
    pub value: Value,
}

/// What is said of a property or a variable.
#[derive(Clone, Copy)]
pub enum Value {
    /// An either-or property, by its first name, is true or isn't.
    Truth(bool),
    /// A number property or a variable is this number.
    Amount(i32),
    /// A kind of value has the value at this place of its list, counted from 0.
    Choice(usize),
    /// A kind of value has none of its own: another kind's value was told, or what the value isn't.
    Never,
}

/// A property of an object has a value.
#[derive(Drop)]
pub struct Having {
    pub object: TextBytes,
    pub property: TextBytes,
    pub value: Value,
}

/// A property of objects of a kind usually has a value.
#[derive(Drop)]
pub struct Usual {
    pub kind: TextBytes,
    pub property: TextBytes,
    pub value: Value,
}

/// A variable starts at a number.
#[derive(Drop)]
pub struct Start {
    pub variable: TextBytes,
    pub number: i32,
}

/// What is claimed, names in small letters.
#[derive(Drop)]
pub enum Fact {
    Stands(Naming),
    Rulebook(TextBytes),
    Lies(Lying),
    CanBe(Grant),
    HasNumber(Grant),
    /// Objects of a kind have a value of a kind of value.
    HasValue(Grant),
    Values(Listing),
    Demands(Demand),
    /// An object is a room, unless a door is demanded of it.
    RoomUnlessDoor(TextBytes),
    /// A door's two rooms are told.
    Between(TextBytes),
    Placed(Placing),
    Has(Having),
    Usually(Usual),
    Starts(Start),
    /// Words that name nothing.
    Unread(TextBytes),
}

/// A claim and the line of its sentence.
#[derive(Drop)]
pub struct Claim {
    pub fact: Fact,
    pub line: u32,
}
