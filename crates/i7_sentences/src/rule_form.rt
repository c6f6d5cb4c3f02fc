//! The heads of rules as data.
ghost use Rattle.std.specs.Prelude.{◌≡◌, option_map, IfOk};
ghost use Rattle.i7_sentences.specs.Found.{found_in};
ghost use Rattle.i7_sentences.specs.Matching.{lowest_fit};
ghost use Rattle.i7_sentences.specs.RuleHeads.{is_head_form, is_rule_form, rule_forms};

use crate::column_stack::ColumnStack;
use crate::form::Piece::{Letter, Word};
use crate::reading::{Reading, lowest_fit};
use crate::signs::signs_of;
use crate::tagged::Tagged;
use crate::{Class, Form, FormRow, Keyword, Piece};
use std::alloc::{AllocError, Global};

/// Which book a head names.
#[derive(Clone, Copy, PartialEq, Eq)]
pub enum HeadBook {
    Before,
    Instead,
    Check,
    CarryOut,
    After,
    Report,
    EveryTurn,
    PlayBegins,
    /// The beginning of a scene: the head's first letter.
    SceneBegins,
    /// The end of a scene: the same.
    SceneEnds,
    /// A book of the author's: the same.
    Own,
}

/// What stands in a head behind the words of its book, up to the name or the body.
#[derive(Clone, Copy, PartialEq, Eq)]
pub enum HeadParts {
    Nothing,
    /// A pattern, perhaps `during S`, perhaps `when C`.
    Pattern,
    /// Behind `in` a place, perhaps `during S`, perhaps `when C`.
    Place,
    /// Behind `during` a scene, perhaps `when C`.
    Scene,
    /// Behind `when` a condition.
    Condition,
}

/// What stands in a head: its letters are the name of a scene or of a book of the author's, all that is told behind
/// the words of the book and the rule's name, as far as they are there, and at last the body.
#[derive(Clone, Copy, PartialEq, Eq)]
pub struct HeadForm {
    pub book: HeadBook,
    pub parts: HeadParts,
    /// Whether `(this is the W rule)` stands in front of the body.
    pub is_named: bool,
}

const WORDS: Piece = Letter(Class::Words);

const NAME: Piece = Letter(Class::Name);

const BODY: Piece = Letter(Class::Body);

const BEFORE: Piece = Word(Keyword::Before);

const INSTEAD: Piece = Word(Keyword::Instead);

const OF: Piece = Word(Keyword::Of);

const CHECK: Piece = Word(Keyword::Check);

const CARRY: Piece = Word(Keyword::Carry);

const OUT: Piece = Word(Keyword::Out);

const AFTER: Piece = Word(Keyword::After);

const REPORT: Piece = Word(Keyword::Report);

const EVERY: Piece = Word(Keyword::Every);

const TURN: Piece = Word(Keyword::Turn);

const WHEN: Piece = Word(Keyword::When);

const PLAY: Piece = Word(Keyword::Play);

const BEGINS: Piece = Word(Keyword::Begins);

const ENDS: Piece = Word(Keyword::Ends);

const IN: Piece = Word(Keyword::In);

const DURING: Piece = Word(Keyword::During);

const RULE: Piece = Word(Keyword::Rule);

const OPEN: Piece = Word(Keyword::Open);

const THIS: Piece = Word(Keyword::This);

const IS: Piece = Word(Keyword::Is);

const THE: Piece = Word(Keyword::The);

const CLOSE: Piece = Word(Keyword::Close);

/// The forms of rules, of which the first that fits is meant: one for each book, in the order of the sentence forms.
pub const RULE_FORMS: [FormRow; 11] = [
    (
        Some(Keyword::Before),
        &[
            (
                Form::Head(HeadBook::Before, HeadParts::Pattern),
                &[BEFORE, WORDS, BODY],
            ),
            (
                Form::NamedHead(HeadBook::Before, HeadParts::Pattern),
                &[BEFORE, WORDS, OPEN, THIS, IS, THE, WORDS, RULE, CLOSE, BODY],
            ),
        ],
    ),
    (
        Some(Keyword::Instead),
        &[
            (
                Form::Head(HeadBook::Instead, HeadParts::Pattern),
                &[INSTEAD, OF, WORDS, BODY],
            ),
            (
                Form::NamedHead(HeadBook::Instead, HeadParts::Pattern),
                &[
                    INSTEAD, OF, WORDS, OPEN, THIS, IS, THE, WORDS, RULE, CLOSE, BODY,
                ],
            ),
        ],
    ),
    (
        Some(Keyword::Check),
        &[
            (
                Form::Head(HeadBook::Check, HeadParts::Pattern),
                &[CHECK, WORDS, BODY],
            ),
            (
                Form::NamedHead(HeadBook::Check, HeadParts::Pattern),
                &[CHECK, WORDS, OPEN, THIS, IS, THE, WORDS, RULE, CLOSE, BODY],
            ),
        ],
    ),
    (
        Some(Keyword::Carry),
        &[
            (
                Form::Head(HeadBook::CarryOut, HeadParts::Pattern),
                &[CARRY, OUT, WORDS, BODY],
            ),
            (
                Form::NamedHead(HeadBook::CarryOut, HeadParts::Pattern),
                &[
                    CARRY, OUT, WORDS, OPEN, THIS, IS, THE, WORDS, RULE, CLOSE, BODY,
                ],
            ),
        ],
    ),
    (
        Some(Keyword::After),
        &[
            (
                Form::Head(HeadBook::After, HeadParts::Pattern),
                &[AFTER, WORDS, BODY],
            ),
            (
                Form::NamedHead(HeadBook::After, HeadParts::Pattern),
                &[AFTER, WORDS, OPEN, THIS, IS, THE, WORDS, RULE, CLOSE, BODY],
            ),
        ],
    ),
    (
        Some(Keyword::Report),
        &[
            (
                Form::Head(HeadBook::Report, HeadParts::Pattern),
                &[REPORT, WORDS, BODY],
            ),
            (
                Form::NamedHead(HeadBook::Report, HeadParts::Pattern),
                &[REPORT, WORDS, OPEN, THIS, IS, THE, WORDS, RULE, CLOSE, BODY],
            ),
        ],
    ),
    (
        Some(Keyword::Every),
        &[
            (
                Form::Head(HeadBook::EveryTurn, HeadParts::Nothing),
                &[EVERY, TURN, BODY],
            ),
            (
                Form::NamedHead(HeadBook::EveryTurn, HeadParts::Nothing),
                &[EVERY, TURN, OPEN, THIS, IS, THE, WORDS, RULE, CLOSE, BODY],
            ),
            (
                Form::Head(HeadBook::EveryTurn, HeadParts::Place),
                &[EVERY, TURN, IN, WORDS, BODY],
            ),
            (
                Form::NamedHead(HeadBook::EveryTurn, HeadParts::Place),
                &[
                    EVERY, TURN, IN, WORDS, OPEN, THIS, IS, THE, WORDS, RULE, CLOSE, BODY,
                ],
            ),
            (
                Form::Head(HeadBook::EveryTurn, HeadParts::Scene),
                &[EVERY, TURN, DURING, WORDS, BODY],
            ),
            (
                Form::NamedHead(HeadBook::EveryTurn, HeadParts::Scene),
                &[
                    EVERY, TURN, DURING, WORDS, OPEN, THIS, IS, THE, WORDS, RULE, CLOSE, BODY,
                ],
            ),
            (
                Form::Head(HeadBook::EveryTurn, HeadParts::Condition),
                &[EVERY, TURN, WHEN, WORDS, BODY],
            ),
            (
                Form::NamedHead(HeadBook::EveryTurn, HeadParts::Condition),
                &[
                    EVERY, TURN, WHEN, WORDS, OPEN, THIS, IS, THE, WORDS, RULE, CLOSE, BODY,
                ],
            ),
        ],
    ),
    (
        Some(Keyword::Play),
        &[
            (
                Form::Head(HeadBook::PlayBegins, HeadParts::Nothing),
                &[WHEN, PLAY, BEGINS, BODY],
            ),
            (
                Form::NamedHead(HeadBook::PlayBegins, HeadParts::Nothing),
                &[
                    WHEN, PLAY, BEGINS, OPEN, THIS, IS, THE, WORDS, RULE, CLOSE, BODY,
                ],
            ),
        ],
    ),
    (
        Some(Keyword::Begins),
        &[
            (
                Form::Head(HeadBook::SceneBegins, HeadParts::Nothing),
                &[WHEN, NAME, BEGINS, BODY],
            ),
            (
                Form::NamedHead(HeadBook::SceneBegins, HeadParts::Nothing),
                &[
                    WHEN, NAME, BEGINS, OPEN, THIS, IS, THE, WORDS, RULE, CLOSE, BODY,
                ],
            ),
        ],
    ),
    (
        Some(Keyword::Ends),
        &[
            (
                Form::Head(HeadBook::SceneEnds, HeadParts::Nothing),
                &[WHEN, NAME, ENDS, BODY],
            ),
            (
                Form::NamedHead(HeadBook::SceneEnds, HeadParts::Nothing),
                &[
                    WHEN, NAME, ENDS, OPEN, THIS, IS, THE, WORDS, RULE, CLOSE, BODY,
                ],
            ),
        ],
    ),
    (
        Some(Keyword::Rule),
        &[
            (
                Form::Head(HeadBook::Own, HeadParts::Nothing),
                &[WORDS, RULE, BODY],
            ),
            (
                Form::NamedHead(HeadBook::Own, HeadParts::Nothing),
                &[WORDS, RULE, OPEN, THIS, IS, THE, WORDS, RULE, CLOSE, BODY],
            ),
            (
                Form::Head(HeadBook::Own, HeadParts::Place),
                &[WORDS, RULE, IN, WORDS, BODY],
            ),
            (
                Form::NamedHead(HeadBook::Own, HeadParts::Place),
                &[
                    WORDS, RULE, IN, WORDS, OPEN, THIS, IS, THE, WORDS, RULE, CLOSE, BODY,
                ],
            ),
            (
                Form::Head(HeadBook::Own, HeadParts::Scene),
                &[WORDS, RULE, DURING, WORDS, BODY],
            ),
            (
                Form::NamedHead(HeadBook::Own, HeadParts::Scene),
                &[
                    WORDS, RULE, DURING, WORDS, OPEN, THIS, IS, THE, WORDS, RULE, CLOSE, BODY,
                ],
            ),
            (
                Form::Head(HeadBook::Own, HeadParts::Condition),
                &[WORDS, RULE, WHEN, WORDS, BODY],
            ),
            (
                Form::NamedHead(HeadBook::Own, HeadParts::Condition),
                &[
                    WORDS, RULE, WHEN, WORDS, OPEN, THIS, IS, THE, WORDS, RULE, CLOSE, BODY,
                ],
            ),
        ],
    ),
];

/// The forms at one place of memory.
static TABLE: [FormRow; 11] = RULE_FORMS;

/// Whether a form is one of rules.
pub fn is_rule_form(form: Form) -> bool
    ensures { result ≡ is_rule_form form }
{
    match form {
        Form::BeforeRule
        | Form::InsteadRule
        | Form::CheckRule
        | Form::CarryOutRule
        | Form::AfterRule
        | Form::ReportRule
        | Form::EveryTurnRule
        | Form::PlayBeginsRule
        | Form::SceneBeginsRule
        | Form::SceneEndsRule
        | Form::OwnRule => true,
        _ => false,
    }
}

/// What stands in a head, if the form is one of a head.
pub fn is_head_form(form: Form) -> Option<HeadForm>
    ensures { result ≡ is_head_form form }
{
    match form {
        Form::Head(book, parts) => Some(HeadForm {
            book,
            parts,
            is_named: false,
        }),
        Form::NamedHead(book, parts) => Some(HeadForm {
            book,
            parts,
            is_named: true,
        }),
        _ => None,
    }
}

/// The first of the forms of rules that fits the words.
pub fn rule_reading<'a, 'b>(
    alloc: Global,
    tokens: &'a [Tagged<'b>],
    columns: &mut ColumnStack,
) -> Result<Option<Reading<'a, 'b>>, AllocError>
    ensures { IfOk result (λ found. option_map found_in found ≡ lowest_fit rule_forms tokens.now) }
{
    let signs = signs_of(tokens);
    Ok(lowest_fit(alloc, &TABLE, &signs, tokens, columns)?)
}
