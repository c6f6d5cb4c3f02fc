//! The strings that texts say, in order.
ghost use Rattle.std.specs.Prelude.{◌≡◌, OnOk, fold};
ghost use Rattle.std.specs.List.{flat_map};
ghost use Rattle.object_words.specs.Mentions.{mention};
ghost use Rattle.story_format.specs.Mentioning.{part_strings, piece_strings, text_strings};

use object_words::Strings;
use play_meaning::tree::{Piece, Said, Text};
use std::alloc::{AllocError, Global};

fn mention_piece(alloc: Global, strings: &mut Strings, piece: &Piece) -> Result<(), AllocError>
    ensures { OnOk result (strings.new ≡ fold mention strings.old (piece_strings piece.now)) }
{
    match piece {
        Piece::Bytes(bytes) => strings.mention(alloc, bytes.as_slice()),
        _ => Ok(()),
    }
}

#[tactic(auto, using(object_words::proofs::Folds::fold_both))]
fn mention_pieces(alloc: Global, strings: &mut Strings, pieces: &[Piece]) -> Result<(), AllocError>
    ensures { OnOk result (strings.new ≡ fold mention strings.old (flat_map piece_strings pieces.now)) }
{
    let mut rest = pieces;
    while let [piece, after @ ..] = rest {
        mention_piece(alloc, strings, piece)?;
        rest = after;
    }
    Ok(())
}

#[tactic(auto, using(object_words::proofs::Folds::fold_both))]
fn mention_part(alloc: Global, strings: &mut Strings, part: &Said) -> Result<(), AllocError>
    ensures { OnOk result (strings.new ≡ fold mention strings.old (part_strings part.now)) }
{
    match part {
        Said::Plain(piece) => mention_piece(alloc, strings, piece),
        Said::If(_, pieces, others) => {
            mention_pieces(alloc, strings, pieces.as_slice())?;
            mention_pieces(alloc, strings, others.as_slice())
        }
    }
}

/// Mentions the strings that a text says.
#[tactic(auto, using(object_words::proofs::Folds::fold_both))]
pub fn mention_text(alloc: Global, strings: &mut Strings, text: &Text) -> Result<(), AllocError>
    ensures { OnOk result (strings.new ≡ fold mention strings.old (text_strings text.now)) }
{
    let mut rest = text.parts.as_slice();
    while let [part, after @ ..] = rest {
        mention_part(alloc, strings, part)?;
        rest = after;
    }
    Ok(())
}

/// Mentions the strings that the texts say.
#[tactic(auto, using(object_words::proofs::Folds::fold_both))]
pub fn mention_texts(alloc: Global, strings: &mut Strings, texts: &[Text]) -> Result<(), AllocError>
    ensures { OnOk result (strings.new ≡ fold mention strings.old (flat_map text_strings texts.now)) }
{
    let mut rest = texts;
    while let [text, after @ ..] = rest {
        mention_text(alloc, strings, text)?;
        rest = after;
    }
    Ok(())
}
