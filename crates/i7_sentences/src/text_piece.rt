//! The pieces of a text: what is printed, substitutions, and what an if of the text shuts off.
ghost use Rattle.std.specs.Prelude.{◌≡◌};

use crate::WordList;
use std::marker::Model;
use world_meaning::TextBytes;

/// A piece of a text, as it is said.
#[derive(Drop)]
pub enum TextPiece {
    /// Bytes as they are printed, line breaks and quotes among them.
    Printed(TextBytes),
    /// `[the noun]`: words whose meaning is printed.
    Substitution(WordList),
    /// `[if the box is open]`: what follows is printed if the condition of these words holds.
    If(WordList),
    /// `[otherwise]`
    Otherwise,
    /// `[end if]`
    EndIf,
}

/// The pieces of a text, in order.
#[derive(Drop)]
pub struct TextPieces {
    all: Vec<TextPiece>,
}

impl Model for TextPieces {
    ghost use Rattle.std.specs.Prelude.{List};
    ghost use Rattle.i7_sentences.specs.declared.text_piece.TextPiece.{TextPiece};

    ghost Value = { List TextPiece };

    ghost view = { λ pieces. pieces.all.items };
}

impl TextPieces {
    /// These pieces.
    pub(crate) fn new(all: Vec<TextPiece>) -> TextPieces
        ensures { result ≡ all.items }
    {
        TextPieces { all }
    }

    /// The pieces, in order.
    pub fn as_slice(&self) -> &[TextPiece]
        ensures { result.now ≡ self.now }
    {
        self.all.as_slice()
    }
}
