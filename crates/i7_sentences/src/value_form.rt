//! The sentence forms that speak of kinds of value, as data.
use crate::form::Piece::{Letter, Word};
use crate::{Class, Form, Keyword, Piece};

/// Which letter of a form names a kind of value.
#[derive(Clone, Copy, PartialEq, Eq)]
pub enum KindLetter {
    First,
    /// The first, by the kind's plural.
    FirstPlural,
    Last,
}

const NAME: Piece = Letter(Class::Name);

const NAMES: Piece = Letter(Class::Names);

const IS: Piece = Word(Keyword::Is);

const A: Piece = Word(Keyword::A);

const OF: Piece = Word(Keyword::Of);

const HAS: Piece = Word(Keyword::Has);

const KIND: Piece = Word(Keyword::Kind);

const VALUE: Piece = Word(Keyword::Value);

const USUALLY: Piece = Word(Keyword::Usually);

/// What declares a kind of value.
pub const KIND_OF_VALUE: &[Piece] = &[NAME, IS, A, KIND, OF, VALUE];

/// The forms that speak of kinds of value, the lowest first, each with the letter that must name one of them.
pub const VALUE_FORMS: [(KindLetter, (Form, &[Piece])); 5] = [
    (KindLetter::First, (Form::ValueKind, KIND_OF_VALUE)),
    (KindLetter::FirstPlural, (Form::Values, &[NAME, IS, NAMES])),
    (KindLetter::Last, (Form::HasValue, &[NAME, HAS, NAME])),
    (
        KindLetter::First,
        (Form::UsuallyValue, &[NAME, OF, NAME, IS, USUALLY, NAME]),
    ),
    (
        KindLetter::First,
        (Form::ValueOf, &[NAME, OF, NAME, IS, NAME]),
    ),
];

/// What says of value itself that it is a kind.
pub const VALUE_ITSELF: [(Form, &[Piece]); 2] = [
    (Form::KindOfKind, &[VALUE, IS, A, KIND, OF, NAME]),
    (
        Form::KindOfKind,
        &[Letter(Class::Article), VALUE, IS, A, KIND, OF, NAME],
    ),
];
