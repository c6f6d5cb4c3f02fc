//! The instructions of a story's codes. Numbers, truths and objects are whole numbers: a truth is 0 or 1, nothing is -1, an
//! object is its number. What an instruction takes lies on the operands, the last pushed on top.
use crate::naming::Naming;
use world_meaning::Rel;

/// How an either-or property is asked: by its first name, by its second, or that it isn't so.
#[derive(Clone, Copy, Debug)]
pub enum Asked {
    IsFirst,
    IsSecond,
    IsNotFirst,
    IsNotSecond,
}

/// An instruction. Properties, variables, kinds, kinds of value and their values, scenes, actions, rulebooks, strings and codes go by their numbers, open
/// loops by how many are open around them, ways by the places of the code to which they lead, counted in bytes.
#[derive(Clone, Copy, Debug)]
pub enum Instruction {
    /// A number.
    Num(i32),
    /// A variable.
    Var(u8),
    /// A number property of an object.
    Prop(u8),
    /// The turn count.
    Turns,
    Add,
    Sub,
    Mul,
    /// Whether two numbers, two truths or two objects are one.
    Eq,
    Less,
    AtMost,
    Not,
    And,
    Or,
    /// The noun of the action that is tried.
    Noun,
    /// Its second noun.
    Second,
    /// The player's room.
    Location,
    /// The object of an open loop.
    Loop(u8),
    /// An either-or property of an object.
    Flag(u8, Asked),
    /// Whether an object is of a kind.
    Kind(u8),
    /// Whether an object is held so by another.
    Held(Rel),
    /// What holds an object so.
    Holder(Rel),
    Encloses,
    Visible,
    Touchable,
    /// Whether there is no light where the player is.
    Dark,
    /// Whether a scene happens.
    Happens(u8),
    HasDescription,
    /// The room in a direction from a room.
    Room,
    /// The door in a direction from a room.
    Door,
    /// Whether an object's value of a kind of value is this one.
    Valued(u8, u8),
    /// How many objects there are of which a test is true, each as the object of the loop of this number.
    Count(u8, u16),
    /// Says the names of the objects of which a test is true, each as the object of the loop of this number.
    Names(Naming, u8, u16),
    /// Says a string.
    Say(u16),
    /// Says an object's name.
    Name(Naming),
    /// Says a number.
    Figure,
    /// Says an object's description.
    Description,
    /// Makes an either-or property true of an object or not.
    SetFlag(u8, bool),
    /// Sets an object's number in a number property.
    SetProp(u8),
    /// Sets a variable.
    SetVar(u8),
    /// Puts an object so to another.
    PutAt(Rel),
    /// Moves an object to another.
    Move,
    /// Takes an object away.
    Away,
    /// Says the name of an object's value of a kind of value.
    ValueName(u8),
    /// Gives an object a value of a kind of value.
    SetValue(u8, u8),
    /// Tries an action, silently or not, on two nouns.
    Try(bool, u8),
    /// Follows a rulebook.
    Follow(u16),
    /// Goes on at a place if a truth is false.
    IfZero(u16),
    /// Goes on at a place.
    Jump(u16),
    /// Opens the loop of this number.
    Begin(u8),
    /// The next turn of the loop of this number, with the next object of which a test is true; at its exit if there is none.
    Next(u8, u16, u16),
    /// Ends the story with a string.
    EndStory(u16),
    /// The code ends.
    Done,
    /// The rule decides nothing.
    NoDecision,
    Success,
    Failure,
    /// The test answers a truth.
    Answer,
}
