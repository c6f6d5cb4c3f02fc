//! Whether texts fit.
ghost use Rattle.std.specs.Prelude.{◌≡◌};
ghost use Rattle.std.specs.List.{list_all};
ghost use Rattle.object_words.specs.Mentions.{number_in};
ghost use Rattle.play_meaning.specs.Meant.{text_meant};
ghost use Rattle.play_meaning.specs.Stands.{is_body};
ghost use Rattle.story_code.specs.Fits.{piece_fits, said_fits, text_fits};

use crate::fitting::condition::condition_fits;
use crate::fitting::number::number_fits;
use crate::fitting::object::{OPERANDS, object_fits, test_fits};
use crate::named::value_count;
use object_words::Strings;
use play_meaning::tree::{Piece, Said, Text};
use play_meaning::{Counts, Use};

/// Whether a text fits inside so many loops, in a code for this use: what describes an object says no description.
#[tactic(auto, using(crate::proofs::FitLists::parts_tell))]
pub(crate) fn text_fits(
    counts: &Counts,
    whose: Use,
    strings: &Strings,
    loops: u8,
    text: &Text,
) -> bool
    ensures { result ≡ text_fits counts.now whose (number_in strings.now) loops (text_meant text.now) }
{
    parts_fit(counts, whose, strings, loops, text.parts.as_slice())
}

/// Whether each of these fits.
fn parts_fit(counts: &Counts, whose: Use, strings: &Strings, loops: u8, parts: &[Said]) -> bool
    ensures { result ≡ list_all (said_fits counts.now whose (number_in strings.now) loops) parts.now }
{
    parts
        .iter()
        .all(|part| said_fits(counts, whose, strings, loops, part))
}

/// Whether a piece fits, or what is said by a condition.
fn said_fits(counts: &Counts, whose: Use, strings: &Strings, loops: u8, said: &Said) -> bool
    ensures { result ≡ said_fits counts.now whose (number_in strings.now) loops said.now }
{
    match said {
        Said::Plain(piece) => piece_fits(counts, whose, strings, loops, piece),
        Said::If(condition, pieces, others) => {
            condition_fits(counts, loops, condition, OPERANDS)
                && pieces_fit(counts, whose, strings, loops, pieces.as_slice())
                && pieces_fit(counts, whose, strings, loops, others.as_slice())
        }
    }
}

/// Whether each of these fits.
fn pieces_fit(counts: &Counts, whose: Use, strings: &Strings, loops: u8, pieces: &[Piece]) -> bool
    ensures { result ≡ list_all (piece_fits counts.now whose (number_in strings.now) loops) pieces.now }
{
    pieces
        .iter()
        .all(|piece| piece_fits(counts, whose, strings, loops, piece))
}

/// Whether a piece of a text fits.
fn piece_fits(counts: &Counts, whose: Use, strings: &Strings, loops: u8, piece: &Piece) -> bool
    ensures { result ≡ piece_fits counts.now whose (number_in strings.now) loops piece.now }
{
    match piece {
        Piece::Bytes(bytes) => strings.number_of(bytes.as_slice()) < counts.strings,
        Piece::Figure(number) => number_fits(counts, loops, number, OPERANDS),
        Piece::Name(_, object) => object_fits(counts, loops, object, OPERANDS),
        Piece::Listing(_, description) => test_fits(counts, loops, description),
        Piece::DescriptionOf(object) => {
            is_body(whose) && object_fits(counts, loops, object, OPERANDS)
        }
        Piece::ValueName(kind, object) => {
            value_count(counts, *kind) > 0 && object_fits(counts, loops, object, OPERANDS)
        }
    }
}

/// Whether a code for this use is a body's.
fn is_body(whose: Use) -> bool
    ensures { result ≡ is_body whose }
{
    match whose {
        Use::Body => true,
        Use::Test(_) | Use::Describing => false,
    }
}
