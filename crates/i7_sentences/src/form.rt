//! What a form and its pieces are.
use crate::action_form::ActionSort;
use crate::rule_form::{HeadBook, HeadParts};
use crate::{Class, Keyword, PhraseForm};
use world_meaning::Rel;

/// A piece of a sentence form.
#[derive(Clone, Copy, PartialEq, Eq)]
pub enum Piece {
    /// This word or mark.
    Word(Keyword),
    /// A letter, whose words the reader keeps.
    Letter(Class),
}

/// The variants of the sentence forms.
#[derive(Clone, Copy, PartialEq, Eq)]
pub enum Form {
    /// A text alone.
    Description,
    /// `understand "orb" or "globe" as the ball`
    Understand,
    BeforeRule,
    InsteadRule,
    CheckRule,
    CarryOutRule,
    AfterRule,
    ReportRule,
    EveryTurnRule,
    PlayBeginsRule,
    SceneBeginsRule,
    SceneEndsRule,
    OwnRule,
    /// `the storm begins when the score is at least 1`
    SceneBegins,
    /// `the storm ends when in darkness`
    SceneEnds,
    ListedFirst,
    ListedLast,
    NotListed,
    /// `weighing it with is an action applying to one carried thing and one thing`
    Action(ActionSort),
    /// `weighing it with is an action applying to two things`
    ActionOnTwo(ActionSort),
    /// `the cleanup rules is a rulebook`
    Rulebook,
    /// `the storm is a scene`
    Scene,
    /// `the storm is a recurring scene`
    RecurringScene,
    /// `colour is a kind of value`
    ValueKind,
    /// `the colours are red, green and blue`
    Values,
    /// `a ball has a colour`
    HasValue,
    /// `the colour of a ball is usually red`
    UsuallyValue,
    /// `the colour of the ball is red`
    ValueOf,
    /// `a lamp is a kind of device`
    KindOfKind,
    /// `a device can be broken`
    CanBe,
    /// `a device can be broken or whole`
    CanBeEither,
    /// `a thing has a number called weight`
    NumberProperty,
    /// `a lamp is usually lit and scenery`
    Usually,
    /// `the weight of a thing is usually 5`
    UsuallyNumber,
    /// `the score is a number that varies`
    Variable,
    /// `the description of the ball is "Red."`
    DescriptionOf,
    /// `the weight of the ball is 3`
    NumberOf,
    /// `the gate is north of the hall and south of the garden`
    DoorTo,
    /// `the garden is north of the hall`
    WayTo,
    /// `north of the hall is the garden`
    WayFrom,
    /// `in the box is a ball`, `bob carries a ball and a cup`
    Holds(Rel),
    /// `the score is 5`
    VariableIs,
    /// `the ball and the cup are in the box`
    Held(Rel),
    /// `the lamp is a lit device in the box`
    WhatHeld(Rel),
    /// `the hall is a dark room`
    Is,
    /// A phrase of a rule's body, which is no sentence.
    Phrase(PhraseForm),
    /// A rule by all that stands in its head, which is no form of its own.
    Head(HeadBook, HeadParts),
    /// The same with a name of the rule's.
    NamedHead(HeadBook, HeadParts),
}

/// A row of a table of forms: a word or mark that each variant has, if one is told, so that where it isn't there the form
/// is passed over whole; and the form's variants.
pub type FormRow = (Option<Keyword>, &'static [(Form, &'static [Piece])]);
