//! What is read of a text, piece by piece: what is said so far, and the if that is open.
ghost use Rattle.std.specs.Prelude.{◌≡◌, ◌++◌, ◌∷◌, [], map, IfOk};
ghost use Rattle.i7_conditions.specs.Conjoining.{found_condition};
ghost use Rattle.i7_phrases.specs.Drafts.{Chosen, Outside as IsOutside, after, draft_of, ended, next_of, opened, opened_over, part_of, place_of, sense_of, with_end, with_found, with_if, with_otherwise, with_piece};
ghost use Rattle.i7_phrases.specs.SubstitutionForms.{found_piece, piece_of};
ghost use Rattle.i7_phrases.specs.Texts.{found_text};
ghost use Rattle.play_meaning.specs.Meant.{condition_meant};

use i7_conditions::Found;
use play_meaning::tree::{Condition, Piece, Said, Text};
use std::alloc::{AllocError, Global};

/// Where a text stands behind some of its pieces.
#[derive(Clone, Copy, PartialEq, Eq)]
pub enum Place {
    Outside,
    /// Behind an `[if C]`.
    Then,
    /// Behind its `[otherwise]`.
    Else,
}

/// What is read of a text.
#[derive(Drop)]
pub enum Draft {
    Outside(Vec<Said>),
    Then(Vec<Said>, Condition, Vec<Piece>),
    Else(Vec<Said>, Condition, Vec<Piece>, Vec<Piece>),
    /// It says more than the language allows.
    Over(Place),
}

/// What a piece of a text says or opens.
#[derive(Drop)]
pub enum Sense {
    Said(Found<Piece>),
    If(Found<Condition>),
    Otherwise,
    EndIf,
}

/// A text of which nothing is read yet.
pub fn start(alloc: Global) -> Draft
    ensures { draft_of result ≡ IsOutside [] }
{
    Draft::Outside(Vec::new(alloc))
}

/// Where the text stands.
fn place_of(draft: &Draft) -> Place
    ensures { result ≡ place_of (draft_of draft.now) }
{
    match draft {
        Draft::Outside(_) => Place::Outside,
        Draft::Then(_, _, _) => Place::Then,
        Draft::Else(_, _, _, _) => Place::Else,
        Draft::Over(place) => *place,
    }
}

/// A piece is said.
fn with_piece(draft: Draft, piece: Piece) -> Result<Draft, AllocError>
    ensures { IfOk result (λ next. draft_of next ≡ with_piece (draft_of draft) (piece_of piece)) }
{
    match draft {
        Draft::Outside(mut parts) => {
            parts.push(Said::Plain(piece))?;
            Ok(Draft::Outside(parts))
        }
        Draft::Then(parts, condition, mut pieces) => match pieces.push(piece) {
            Ok(()) => Ok(Draft::Then(parts, condition, pieces)),
            Err(refused) => {
                drop(condition);
                Err(refused.into())
            }
        },
        Draft::Else(parts, condition, pieces, mut others) => match others.push(piece) {
            Ok(()) => Ok(Draft::Else(parts, condition, pieces, others)),
            Err(refused) => {
                drop(condition);
                Err(refused.into())
            }
        },
        Draft::Over(place) => {
            drop(piece);
            Ok(Draft::Over(place))
        }
    }
}

/// A piece is said, if it means something.
fn with_found(draft: Draft, found: Found<Piece>) -> Result<Option<Draft>, AllocError>
    ensures { IfOk result (λ next. next_of next ≡ with_found (draft_of draft) (found_piece found)) }
{
    match found {
        Found::Read(piece) => {
            let next = with_piece(draft, piece)?;
            Ok(Some(next))
        }
        Found::TooMany => Ok(Some(Draft::Over(place_of(&draft)))),
        Found::Unread => Ok(None),
    }
}

/// An if is opened behind these parts.
fn opened(alloc: Global, parts: Vec<Said>, found: Found<Condition>) -> Option<Draft>
    ensures { next_of result ≡ opened (map part_of parts.items) (found_condition found) }
{
    match found {
        Found::Read(condition) => Some(Draft::Then(parts, condition, Vec::new(alloc))),
        Found::TooMany => Some(Draft::Over(Place::Then)),
        Found::Unread => None,
    }
}

/// An if is opened where the text says too much.
fn opened_over(found: Found<Condition>) -> Option<Draft>
    ensures { next_of result ≡ opened_over (found_condition found) }
{
    match found {
        Found::Read(condition) => {
            drop(condition);
            Some(Draft::Over(Place::Then))
        }
        Found::TooMany => Some(Draft::Over(Place::Then)),
        Found::Unread => None,
    }
}

/// `[if C]`, which stands outside ifs alone.
fn with_if(alloc: Global, draft: Draft, found: Found<Condition>) -> Option<Draft>
    ensures { next_of result ≡ with_if (draft_of draft) (found_condition found) }
{
    match draft {
        Draft::Outside(parts) => opened(alloc, parts, found),
        Draft::Over(place) => match place {
            Place::Outside => opened_over(found),
            Place::Then | Place::Else => None,
        },
        Draft::Then(_, _, _) | Draft::Else(_, _, _, _) => None,
    }
}

/// `[otherwise]`, which stands behind an `[if C]`.
fn with_otherwise(alloc: Global, draft: Draft) -> Option<Draft>
    ensures { next_of result ≡ with_otherwise (draft_of draft) }
{
    match draft {
        Draft::Then(parts, condition, pieces) => {
            Some(Draft::Else(parts, condition, pieces, Vec::new(alloc)))
        }
        Draft::Over(place) => match place {
            Place::Then => Some(Draft::Over(Place::Else)),
            Place::Outside | Place::Else => None,
        },
        Draft::Else(_, condition, _, _) => {
            drop(condition);
            None
        }
        Draft::Outside(_) => None,
    }
}

/// An if with its two branches is said.
fn with_choice(
    mut parts: Vec<Said>,
    condition: Condition,
    pieces: Vec<Piece>,
    others: Vec<Piece>,
) -> Result<Draft, AllocError>
    ensures { IfOk result (λ next. draft_of next ≡ IsOutside (map part_of parts.items ++ Chosen (condition_meant condition) (map piece_of pieces.items) (map piece_of others.items) ∷ [])) }
{
    parts.push(Said::If(condition, pieces, others))?;
    Ok(Draft::Outside(parts))
}

/// `[end if]`, which ends an if.
fn with_end(alloc: Global, draft: Draft) -> Result<Option<Draft>, AllocError>
    ensures { IfOk result (λ next. next_of next ≡ with_end (draft_of draft)) }
{
    match draft {
        Draft::Then(parts, condition, pieces) => {
            let next = with_choice(parts, condition, pieces, Vec::new(alloc))?;
            Ok(Some(next))
        }
        Draft::Else(parts, condition, pieces, others) => {
            let next = with_choice(parts, condition, pieces, others)?;
            Ok(Some(next))
        }
        Draft::Over(place) => match place {
            Place::Then | Place::Else => Ok(Some(Draft::Over(Place::Outside))),
            Place::Outside => Ok(None),
        },
        Draft::Outside(_) => Ok(None),
    }
}

/// What is read behind one more piece, if that may stand there and means something.
pub fn after(alloc: Global, draft: Draft, sense: Sense) -> Result<Option<Draft>, AllocError>
    ensures { IfOk result (λ next. next_of next ≡ after (draft_of draft) (sense_of sense)) }
{
    match sense {
        Sense::Said(found) => Ok(with_found(draft, found)?),
        Sense::If(found) => Ok(with_if(alloc, draft, found)),
        Sense::Otherwise => Ok(with_otherwise(alloc, draft)),
        Sense::EndIf => Ok(with_end(alloc, draft)?),
    }
}

/// The text that is read where it ends here.
#[tactic(auto, using(crate::proofs::Drafted::parts_meant_are))]
pub fn ended(draft: Draft) -> Found<Text>
    ensures { found_text result ≡ ended (draft_of draft) }
{
    match draft {
        Draft::Outside(parts) => Found::Read(Text { parts }),
        Draft::Over(place) => match place {
            Place::Outside => Found::TooMany,
            Place::Then | Place::Else => Found::Unread,
        },
        Draft::Then(_, condition, _) => {
            drop(condition);
            Found::Unread
        }
        Draft::Else(_, condition, _, _) => {
            drop(condition);
            Found::Unread
        }
    }
}
