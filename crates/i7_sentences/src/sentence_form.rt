//! The sentence forms as data, the lowest first.
use crate::action_form::ACTION_FORMS;
use crate::form::Piece::{Letter, Word};
use crate::{Class, Form, FormRow, Keyword, Piece};
use world_meaning::Rel;

const WORDS: Piece = Letter(Class::Words);

const NAME: Piece = Letter(Class::Name);

const NAMES: Piece = Letter(Class::Names);

const WHAT: Piece = Letter(Class::What);

const LITERAL: Piece = Letter(Class::Number);

const TEXT: Piece = Letter(Class::Text);

const SIDE: Piece = Letter(Class::Side);

const HEAD: Piece = Letter(Class::Head);

const BODY: Piece = Letter(Class::Body);

const IS: Piece = Word(Keyword::Is);

const A: Piece = Word(Keyword::A);

const OF: Piece = Word(Keyword::Of);

const IN: Piece = Word(Keyword::In);

const ON: Piece = Word(Keyword::On);

const BY: Piece = Word(Keyword::By);

const CARRIED: Piece = Word(Keyword::Carried);

const WORN: Piece = Word(Keyword::Worn);

const PART: Piece = Word(Keyword::Part);

const AND: Piece = Word(Keyword::And);

const WHEN: Piece = Word(Keyword::When);

const BEGINS: Piece = Word(Keyword::Begins);

const ENDS: Piece = Word(Keyword::Ends);

const RULE: Piece = Word(Keyword::Rule);

const RULES: Piece = Word(Keyword::Rules);

const RULEBOOK: Piece = Word(Keyword::Rulebook);

const LISTED: Piece = Word(Keyword::Listed);

const SCENE: Piece = Word(Keyword::Scene);

const OUT: Piece = Word(Keyword::Out);

const USUALLY: Piece = Word(Keyword::Usually);

const DESCRIPTION: Piece = Word(Keyword::Description);

const NUMBER: Piece = Word(Keyword::Number);

/// The forms up to that of what a scene begins or ends on, the lowest first. Each is its variants: where several fit a
/// sentence, that with the shortest letters is read, and of equally short ones the first.
pub const LOWER_FORMS: [FormRow; 14] = [
    (None, &[(Form::Description, &[TEXT])]),
    (
        Some(Keyword::Understand),
        &[(
            Form::Understand,
            &[
                Word(Keyword::Understand),
                Letter(Class::Texts),
                Word(Keyword::As),
                WORDS,
            ],
        )],
    ),
    (
        Some(Keyword::Before),
        &[(Form::BeforeRule, &[Word(Keyword::Before), HEAD, BODY])],
    ),
    (
        Some(Keyword::Instead),
        &[(Form::InsteadRule, &[Word(Keyword::Instead), OF, HEAD, BODY])],
    ),
    (
        Some(Keyword::Check),
        &[(Form::CheckRule, &[Word(Keyword::Check), HEAD, BODY])],
    ),
    (
        Some(Keyword::Carry),
        &[(Form::CarryOutRule, &[Word(Keyword::Carry), OUT, HEAD, BODY])],
    ),
    (
        Some(Keyword::After),
        &[(Form::AfterRule, &[Word(Keyword::After), HEAD, BODY])],
    ),
    (
        Some(Keyword::Report),
        &[(Form::ReportRule, &[Word(Keyword::Report), HEAD, BODY])],
    ),
    (
        Some(Keyword::Every),
        &[
            (
                Form::EveryTurnRule,
                &[Word(Keyword::Every), Word(Keyword::Turn), BODY],
            ),
            (
                Form::EveryTurnRule,
                &[Word(Keyword::Every), Word(Keyword::Turn), HEAD, BODY],
            ),
        ],
    ),
    (
        Some(Keyword::Play),
        &[
            (
                Form::PlayBeginsRule,
                &[WHEN, Word(Keyword::Play), BEGINS, BODY],
            ),
            (
                Form::PlayBeginsRule,
                &[WHEN, Word(Keyword::Play), BEGINS, HEAD, BODY],
            ),
        ],
    ),
    (
        Some(Keyword::Begins),
        &[
            (Form::SceneBeginsRule, &[WHEN, NAME, BEGINS, BODY]),
            (Form::SceneBeginsRule, &[WHEN, NAME, BEGINS, HEAD, BODY]),
        ],
    ),
    (
        Some(Keyword::Ends),
        &[
            (Form::SceneEndsRule, &[WHEN, NAME, ENDS, BODY]),
            (Form::SceneEndsRule, &[WHEN, NAME, ENDS, HEAD, BODY]),
        ],
    ),
    (
        Some(Keyword::Rule),
        &[
            (Form::OwnRule, &[WORDS, RULE, BODY]),
            (Form::OwnRule, &[WORDS, RULE, HEAD, BODY]),
        ],
    ),
    (
        Some(Keyword::When),
        &[
            (Form::SceneBegins, &[NAME, BEGINS, WHEN, WORDS]),
            (Form::SceneEnds, &[NAME, ENDS, WHEN, WORDS]),
        ],
    ),
];

/// The forms behind these that are tried before those that speak of kinds of value, the lowest first.
pub const MIDDLE_FORMS: [FormRow; 4] = [
    (
        Some(Keyword::Listed),
        &[
            (
                Form::ListedFirst,
                &[
                    WORDS,
                    RULE,
                    IS,
                    LISTED,
                    Word(Keyword::First),
                    IN,
                    WORDS,
                    RULES,
                ],
            ),
            (
                Form::ListedLast,
                &[
                    WORDS,
                    RULE,
                    IS,
                    LISTED,
                    Word(Keyword::Last),
                    IN,
                    WORDS,
                    RULES,
                ],
            ),
            (
                Form::NotListed,
                &[
                    WORDS,
                    RULE,
                    IS,
                    Word(Keyword::Not),
                    LISTED,
                    IN,
                    Word(Keyword::Any),
                    RULEBOOK,
                ],
            ),
        ],
    ),
    (Some(Keyword::Action), ACTION_FORMS),
    (
        Some(Keyword::Rulebook),
        &[(Form::Rulebook, &[NAME, RULES, IS, A, RULEBOOK])],
    ),
    (
        Some(Keyword::Scene),
        &[
            (Form::Scene, &[NAME, IS, A, SCENE]),
            (
                Form::RecurringScene,
                &[NAME, IS, A, Word(Keyword::Recurring), SCENE],
            ),
        ],
    ),
];

/// The forms that are tried after them, the lowest first.
pub const HIGHER_FORMS: [FormRow; 12] = [
    (
        Some(Keyword::Kind),
        &[(
            Form::KindOfKind,
            &[NAME, IS, A, Word(Keyword::Kind), OF, NAME],
        )],
    ),
    (
        Some(Keyword::Can),
        &[
            (
                Form::CanBe,
                &[NAME, Word(Keyword::Can), Word(Keyword::Be), NAME],
            ),
            (
                Form::CanBeEither,
                &[
                    NAME,
                    Word(Keyword::Can),
                    Word(Keyword::Be),
                    NAME,
                    Word(Keyword::Or),
                    NAME,
                ],
            ),
        ],
    ),
    (
        Some(Keyword::Called),
        &[(
            Form::NumberProperty,
            &[
                NAME,
                Word(Keyword::Has),
                A,
                NUMBER,
                Word(Keyword::Called),
                NAME,
            ],
        )],
    ),
    (
        Some(Keyword::Usually),
        &[
            (Form::Usually, &[NAME, IS, USUALLY, Letter(Class::Usual)]),
            (Form::UsuallyNumber, &[NAME, OF, NAME, IS, USUALLY, LITERAL]),
        ],
    ),
    (
        Some(Keyword::Varies),
        &[(
            Form::Variable,
            &[
                NAME,
                IS,
                A,
                NUMBER,
                Word(Keyword::That),
                Word(Keyword::Varies),
            ],
        )],
    ),
    (
        Some(Keyword::Description),
        &[
            (Form::DescriptionOf, &[DESCRIPTION, OF, NAME, IS, TEXT]),
            (
                Form::DescriptionOf,
                &[Letter(Class::Article), DESCRIPTION, OF, NAME, IS, TEXT],
            ),
        ],
    ),
    (
        Some(Keyword::Of),
        &[(Form::NumberOf, &[NAME, OF, NAME, IS, LITERAL])],
    ),
    (
        Some(Keyword::Is),
        &[
            (Form::DoorTo, &[NAME, IS, SIDE, NAME, AND, SIDE, NAME]),
            (Form::WayTo, &[NAME, IS, SIDE, NAME]),
            (Form::WayFrom, &[SIDE, NAME, IS, NAME]),
        ],
    ),
    (
        None,
        &[
            (
                Form::Holds(Rel::Carried),
                &[NAME, Word(Keyword::Carries), NAMES],
            ),
            (Form::Holds(Rel::Worn), &[NAME, Word(Keyword::Wears), NAMES]),
            (Form::Holds(Rel::In), &[IN, NAME, IS, NAMES]),
            (Form::Holds(Rel::On), &[ON, NAME, IS, NAMES]),
        ],
    ),
    (
        Some(Keyword::Is),
        &[
            (Form::VariableIs, &[NAME, IS, LITERAL]),
            (Form::Held(Rel::In), &[NAMES, IS, IN, NAME]),
            (Form::Held(Rel::On), &[NAMES, IS, ON, NAME]),
            (Form::Held(Rel::Carried), &[NAMES, IS, CARRIED, BY, NAME]),
            (Form::Held(Rel::Worn), &[NAMES, IS, WORN, BY, NAME]),
            (Form::Held(Rel::Part), &[NAMES, IS, PART, OF, NAME]),
        ],
    ),
    (
        Some(Keyword::Is),
        &[
            (Form::WhatHeld(Rel::In), &[NAMES, IS, WHAT, IN, NAME]),
            (Form::WhatHeld(Rel::On), &[NAMES, IS, WHAT, ON, NAME]),
            (
                Form::WhatHeld(Rel::Carried),
                &[NAMES, IS, WHAT, CARRIED, BY, NAME],
            ),
            (
                Form::WhatHeld(Rel::Worn),
                &[NAMES, IS, WHAT, WORN, BY, NAME],
            ),
            (
                Form::WhatHeld(Rel::Part),
                &[NAMES, IS, WHAT, PART, OF, NAME],
            ),
        ],
    ),
    (Some(Keyword::Is), &[(Form::Is, &[NAMES, IS, WHAT])]),
];
