//! What is found in a text before its tokens are made: that it can be cut, how many tokens it may have, and
//! whether a line is too deep.
ghost use Rattle.std.specs.Prelude.{◌≡◌, ◌<◌, ◌^◌, length, IfErr, IfOk, MatchOption, OnOk};
ghost use Rattle.i7_lexer.specs.Cuts.{IsPlaced, IsUnclosedIn};
ghost use Rattle.i7_lexer.specs.Indents.{AreIndented, IsTooDeep};
ghost use Rattle.i7_lexer.specs.Lexing.{placed_in};
ghost use Rattle.i7_lexer.specs.Places.{at_front};
ghost use Rattle.world_meaning.specs.declared.fault.FaultCode.{FaultCode};

use crate::cursor::Cursor;
use crate::indents::Depth;
use crate::lexeme::{Lexeme, next_lexeme};
use crate::placed::Placed;
use world_meaning::{Fault, FaultCode};

/// What is found in a text that can be cut.
#[derive(Clone, Copy)]
pub(crate) struct Survey {
    /// How many words, texts and marks it has.
    pub count: usize,
    /// The first line that is too deep.
    pub deep: Option<u32>,
}

/// What is found in the text; else the fault, an unclosed text or comment.
pub(crate) fn survey_of(text: &[u8]) -> Result<Survey, Fault>
    requires { length text.now < 2 ^ 31 }
    ensures placed { OnOk result (IsPlaced text.now (placed_in at_front text.now)) }
    ensures depth { IfOk result (λ found. MatchOption found.deep (AreIndented (placed_in at_front text.now)) (IsTooDeep (placed_in at_front text.now))) }
    ensures fault { IfErr result (λ f. (f.code ≡ FaultCode.Unclosed) × IsUnclosedIn text.now f.line) }
{
    let mut count = 0;
    let mut depth = Depth::at_front();
    let mut at = Cursor::at_front();
    let mut rest = text;
    while !rest.is_empty() {
        let Some((lexeme, after)) = next_lexeme(rest) else {
            return Err(Fault {
                code: FaultCode::Unclosed,
                line: at.line,
            });
        };
        let behind = at.after(&lexeme);
        if let Lexeme::Kept(piece) = lexeme {
            depth = depth.with(&Placed { piece, at });
            count += 1;
        }
        at = behind;
        rest = after;
    }
    Ok(Survey {
        count,
        deep: depth.deep,
    })
}
