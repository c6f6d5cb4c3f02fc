//! The forms of sentences that declare an action (*Writing with Inform*, 12.7): `Weighing it with is an action applying to one
//! carried thing and one thing and requiring light.`, `Scoring is an action out of world.`
use crate::form::Piece::{Letter, Word};
use crate::{Class, Form, Keyword, Piece};

/// Whether an action is of the story's world, and done in the dark.
#[derive(Clone, Copy, PartialEq, Eq)]
pub enum ActionSort {
    /// Of the world, and done in the dark as in the light.
    InWorld,
    /// `requiring light`
    InLight,
    /// `out of world`: about the game, and no part of the world's time
    OutOfWorld,
}

const WORDS: Piece = Letter(Class::Words);

const ASKED: Piece = Letter(Class::Asked);

const IS: Piece = Word(Keyword::Is);

const AN: Piece = Word(Keyword::An);

const ACTION: Piece = Word(Keyword::Action);

const APPLYING: Piece = Word(Keyword::Applying);

const TO: Piece = Word(Keyword::To);

const NOTHING: Piece = Word(Keyword::Nothing);

const ONE: Piece = Word(Keyword::One);

const TWO: Piece = Word(Keyword::Two);

const THINGS: Piece = Word(Keyword::Things);

const AND: Piece = Word(Keyword::And);

const REQUIRING: Piece = Word(Keyword::Requiring);

const LIGHT: Piece = Word(Keyword::Light);

const OUT: Piece = Word(Keyword::Out);

const OF: Piece = Word(Keyword::Of);

const WORLD: Piece = Word(Keyword::World);

/// The variants of one form: the name, and what it applies to; `one` asks for a noun, `two things` for two.
pub const ACTION_FORMS: &[(Form, &[Piece])] = &[
    (
        Form::Action(ActionSort::InWorld),
        &[WORDS, IS, AN, ACTION, APPLYING, TO, NOTHING],
    ),
    (
        Form::Action(ActionSort::InWorld),
        &[WORDS, IS, AN, ACTION, APPLYING, TO, ONE, ASKED],
    ),
    (
        Form::Action(ActionSort::InWorld),
        &[
            WORDS, IS, AN, ACTION, APPLYING, TO, ONE, ASKED, AND, ONE, ASKED,
        ],
    ),
    (
        Form::ActionOnTwo(ActionSort::InWorld),
        &[WORDS, IS, AN, ACTION, APPLYING, TO, TWO, THINGS],
    ),
    (
        Form::Action(ActionSort::InLight),
        &[
            WORDS, IS, AN, ACTION, APPLYING, TO, NOTHING, AND, REQUIRING, LIGHT,
        ],
    ),
    (
        Form::Action(ActionSort::InLight),
        &[
            WORDS, IS, AN, ACTION, APPLYING, TO, ONE, ASKED, AND, REQUIRING, LIGHT,
        ],
    ),
    (
        Form::Action(ActionSort::InLight),
        &[
            WORDS, IS, AN, ACTION, APPLYING, TO, ONE, ASKED, AND, ONE, ASKED, AND, REQUIRING, LIGHT,
        ],
    ),
    (
        Form::ActionOnTwo(ActionSort::InLight),
        &[
            WORDS, IS, AN, ACTION, APPLYING, TO, TWO, THINGS, AND, REQUIRING, LIGHT,
        ],
    ),
    (
        Form::Action(ActionSort::OutOfWorld),
        &[WORDS, IS, AN, ACTION, OUT, OF, WORLD],
    ),
    (
        Form::Action(ActionSort::OutOfWorld),
        &[
            WORDS, IS, AN, ACTION, OUT, OF, WORLD, AND, APPLYING, TO, NOTHING,
        ],
    ),
    (
        Form::Action(ActionSort::OutOfWorld),
        &[
            WORDS, IS, AN, ACTION, OUT, OF, WORLD, AND, APPLYING, TO, ONE, ASKED,
        ],
    ),
    (
        Form::Action(ActionSort::OutOfWorld),
        &[
            WORDS, IS, AN, ACTION, OUT, OF, WORLD, AND, APPLYING, TO, ONE, ASKED, AND, ONE, ASKED,
        ],
    ),
    (
        Form::ActionOnTwo(ActionSort::OutOfWorld),
        &[
            WORDS, IS, AN, ACTION, OUT, OF, WORLD, AND, APPLYING, TO, TWO, THINGS,
        ],
    ),
];
