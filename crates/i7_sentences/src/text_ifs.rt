//! The ifs of a text: each ends, perhaps behind one `[otherwise]`, and none stands in another.
ghost use Rattle.std.specs.Prelude.{◌≡◌};
ghost use Rattle.i7_sentences.specs.TextPieces.{if_step, ifs_end, is_outside};

use crate::TextPiece;

/// Where a place in a text is.
#[derive(Clone, Copy)]
pub enum IfPlace {
    /// In no if.
    Outside,
    /// Behind an `[if ..]`.
    Then,
    /// Behind its `[otherwise]`.
    Else,
}

/// Where the text is behind one more piece, if that may stand here.
fn if_step(place: IfPlace, piece: &TextPiece) -> Option<IfPlace>
    ensures { result ≡ if_step place piece.now }
{
    match piece {
        TextPiece::Printed(_) | TextPiece::Substitution(_) => Some(place),
        TextPiece::If(_) => match place {
            IfPlace::Outside => Some(IfPlace::Then),
            IfPlace::Then | IfPlace::Else => None,
        },
        TextPiece::Otherwise => match place {
            IfPlace::Then => Some(IfPlace::Else),
            IfPlace::Outside | IfPlace::Else => None,
        },
        TextPiece::EndIf => match place {
            IfPlace::Then | IfPlace::Else => Some(IfPlace::Outside),
            IfPlace::Outside => None,
        },
    }
}

/// Whether the place is in no if.
fn is_outside(place: IfPlace) -> bool
    ensures { result ≡ is_outside place }
{
    match place {
        IfPlace::Outside => true,
        IfPlace::Then | IfPlace::Else => false,
    }
}

/// Whether all ifs of a text with these pieces end.
pub fn ifs_end(pieces: &[TextPiece]) -> bool
    ensures { result ≡ ifs_end IfPlace.Outside pieces.now }
{
    let mut place = IfPlace::Outside;
    let mut rest = pieces;
    while let [piece, after @ ..] = rest {
        match if_step(place, piece) {
            None => return false,
            Some(next) => place = next,
        }
        rest = after;
    }
    is_outside(place)
}
