//! Sentences and what they assert.
use crate::{ActionDeclaration, Name, Names, Rule, RuleListing, SceneChange, Understanding};
use world_meaning::{Direction, Rel, TextBytes};

/// What one sentence asserts, its names as it mentions them.
#[derive(Drop)]
pub enum Assertion {
    /// A title or a heading, which asserts nothing.
    Aside,
    /// A text that stands alone, as it is written: the description of the room of the sentence before.
    Description(TextBytes),
    /// `the cleanup rules is a rulebook`
    Rulebook(Name),
    /// `the storm is a scene`, `the storm is a recurring scene`
    Scene {
        name: Name,
        is_recurring: bool,
    },
    /// `colour is a kind of value`
    ValueKind(Name),
    /// `the colours are red, green and blue`: the kind's name as its declaration spells it, and its values in order
    Values {
        kind: Name,
        values: Names,
    },
    /// `a ball has a colour`
    HasValue {
        kind: Name,
        property: Name,
    },
    /// `the colour of a ball is usually red`
    UsuallyValue {
        property: Name,
        kind: Name,
        value: Name,
    },
    /// `the colour of the ball is red`
    ValueOf {
        property: Name,
        object: Name,
        value: Name,
    },
    /// `a lamp is a kind of device`
    KindOfKind {
        kind: Name,
        parent: Name,
    },
    /// `a device can be broken`, `a device can be broken or whole`
    EitherOr {
        kind: Name,
        first: Name,
        second: Option<Name>,
    },
    /// `a thing has a number called weight`
    NumberProperty {
        kind: Name,
        property: Name,
    },
    /// `a lamp is usually lit and not scenery`: the words behind `usually`, parted by one space
    Usually {
        kind: Name,
        adjectives: TextBytes,
    },
    /// `the weight of a thing is usually 5`
    UsuallyNumber {
        property: Name,
        kind: Name,
        number: i32,
    },
    /// `the score is a number that varies`
    Variable(Name),
    /// `the description of the ball is "Red."`: the text as it is written
    DescriptionOf {
        object: Name,
        text: TextBytes,
    },
    /// `the weight of the ball is 3`
    NumberOf {
        property: Name,
        object: Name,
        number: i32,
    },
    /// `the garden is north of the hall`
    Way(Way),
    /// `the gate is north of the hall and south of the garden`
    Door {
        door: Name,
        first: Side,
        second: Side,
    },
    /// `bob carries a ball and a cup`, `in the box is a ball`
    Holds {
        holder: Name,
        relation: Rel,
        things: Names,
    },
    /// `the score is 5`
    VariableIs {
        variable: Name,
        number: i32,
    },
    /// `the ball and the cup are small things in the box`
    Are(Being),
    /// `every turn: say "Tick."`
    Rule(Rule),
    /// `the storm begins when the score is at least 1`
    SceneChange(SceneChange),
    /// `understand "orb" or "globe" as the ball`, `understand "weigh [something]" as weighing`
    Understand(Understanding),
    /// `the oak rule is listed first in the instead rules`, `the oak rule is not listed in any rulebook`
    Listing(RuleListing),
    /// `weighing it with is an action applying to one carried thing and one thing`
    Action(ActionDeclaration),
}

/// A way: the subject lies in this direction of the room.
#[derive(Drop)]
pub struct Way {
    pub subject: Name,
    pub direction: Direction,
    pub room: Name,
    /// Whether the sentence mentions the room before the subject.
    pub is_room_first: bool,
}

/// A side of a room, on which a door is.
#[derive(Drop)]
pub struct Side {
    pub direction: Direction,
    pub room: Name,
}

/// What objects are said to be.
#[derive(Drop)]
pub struct Being {
    pub subjects: Names,
    /// Adjectives, perhaps behind `not`, and perhaps a kind: the words, parted by one space; none where only
    /// a holder is told.
    pub what: TextBytes,
    pub place: Option<Holder>,
}

/// What holds an object, and how.
#[derive(Drop)]
pub struct Holder {
    pub relation: Rel,
    pub name: Name,
}

/// A sentence and the line, counted from 1, of its first token.
#[derive(Drop)]
pub struct Sentence {
    pub said: Assertion,
    pub line: u32,
}
