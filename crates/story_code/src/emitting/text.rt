//! The codes of texts.
ghost use Rattle.std.specs.Prelude.{◌≡◌, OnOk};
ghost use Rattle.object_words.specs.Mentions.{number_in};
ghost use Rattle.play_meaning.specs.Meant.{pieces_meant, text_meant};
ghost use Rattle.play_meaning.specs.Translation.{text_part};
ghost use Rattle.story_code.specs.Emitting.{emitted, piece_part, said_part};

use crate::emitting::condition::{emit_condition, emit_of};
use crate::emitting::number::emit_number;
use crate::emitting::object::test_code;
use crate::emitting::output::Output;
use crate::emitting::tested::Tested;
use object_words::Strings;
use play_meaning::Instruction;
use play_meaning::tree::{Piece, Said, Text};
use std::alloc::{AllocError, Global};

/// Emits a text, inside so many loops, each string by its number.
pub(crate) fn emit_text(
    alloc: Global,
    out: &mut Output,
    strings: &Strings,
    loops: u8,
    text: &Text,
) -> Result<(), AllocError>
    ensures { OnOk result (out.new ≡ emitted out.old (text_part (number_in strings.now) loops (text_meant text.now))) }
{
    let mut rest = text.parts.as_slice();
    while let [part, after @ ..] = rest {
        emit_said(alloc, out, strings, loops, part)?;
        rest = after;
    }
    out.fits();
    Ok(())
}

/// Emits a piece, or what is said by a condition.
fn emit_said(
    alloc: Global,
    out: &mut Output,
    strings: &Strings,
    loops: u8,
    said: &Said,
) -> Result<(), AllocError>
    ensures { OnOk result (out.new ≡ emitted out.old (said_part (number_in strings.now) loops said.now)) }
{
    match said {
        Said::Plain(piece) => emit_piece(alloc, out, strings, loops, piece)?,
        Said::If(condition, pieces, others) => {
            emit_condition(alloc, out, loops, condition)?;
            let branch = out.count();
            out.push(Instruction::IfZero(0))?;
            emit_pieces(alloc, out, strings, loops, pieces.as_slice())?;
            let leap = out.count();
            out.push(Instruction::Jump(0))?;
            let second = out.place();
            emit_pieces(alloc, out, strings, loops, others.as_slice())?;
            let end = out.place();
            out.aim(branch, second);
            out.aim(leap, end);
        }
    }
    Ok(())
}

/// Emits pieces, in order.
fn emit_pieces(
    alloc: Global,
    out: &mut Output,
    strings: &Strings,
    loops: u8,
    pieces: &[Piece],
) -> Result<(), AllocError>
    ensures { OnOk result (out.new ≡ emitted out.old (text_part (number_in strings.now) loops (pieces_meant pieces.now))) }
{
    let mut rest = pieces;
    while let [piece, after @ ..] = rest {
        emit_piece(alloc, out, strings, loops, piece)?;
        rest = after;
    }
    out.fits();
    Ok(())
}

/// Emits a piece of a text.
#[tactic(auto, using(crate::proofs::Followed::emitted_seq))]
fn emit_piece(
    alloc: Global,
    out: &mut Output,
    strings: &Strings,
    loops: u8,
    piece: &Piece,
) -> Result<(), AllocError>
    ensures { OnOk result (out.new ≡ emitted out.old (piece_part (number_in strings.now) loops piece.now)) }
{
    match piece {
        Piece::Bytes(bytes) => out.push(Instruction::Say(strings.number_of(bytes.as_slice()))),
        Piece::Figure(number) => {
            emit_number(alloc, out, loops, number)?;
            out.push(Instruction::Figure)
        }
        Piece::Name(naming, object) => emit_of(alloc, out, object, Instruction::Name(*naming)),
        Piece::Listing(naming, description) => {
            let test = test_code(alloc, loops, description)?;
            out.push_test(Tested::Names(*naming, loops), test)
        }
        Piece::DescriptionOf(object) => emit_of(alloc, out, object, Instruction::Description),
        Piece::ValueName(kind, object) => {
            emit_of(alloc, out, object, Instruction::ValueName(*kind))
        }
    }
}
