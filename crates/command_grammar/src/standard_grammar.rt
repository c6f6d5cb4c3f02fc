//! The commands that every story understands (*Writing with Inform*, chapter 17; the Standard Rules).
ghost use Rattle.std.specs.Prelude.{◌≡◌, IfOk, map};
ghost use Rattle.play_meaning.specs.StandardGrammar.{standard_lines};
ghost use Rattle.command_grammar.specs.Lines.{line_meant, line_of, told_token, token_meant};

use crate::{GrammarLine, KeptToken, Token};
use play_meaning::ActNo;
use play_meaning::standard_actions::{
    CLOSING, DROPPING, EXAMINING, GOING, INSERTING, JUMPING, LOOKING, OPENING, PUTTING_ON,
    SWITCHING_OFF, SWITCHING_ON, TAKING, TAKING_INVENTORY, TAKING_OFF, WAITING, WEARING,
};
use std::alloc::{AllocError, Global};
use world_meaning::{Listed, TextBytes};

/// A line of the grammar: the number of the action that it asks for, and its tokens.
type LineRow<'a> = (u8, &'a [Token<'a>]);

/// The lines of every story, in the order in which they are tried, behind the author's.
const STANDARD_LINES: [LineRow<'static>; 33] = [
    (LOOKING, &[Token::Word(b"look")]),
    (LOOKING, &[Token::Word(b"l")]),
    (EXAMINING, &[Token::Word(b"examine"), Token::Something]),
    (EXAMINING, &[Token::Word(b"x"), Token::Something]),
    (
        EXAMINING,
        &[Token::Word(b"look"), Token::Word(b"at"), Token::Something],
    ),
    (TAKING, &[Token::Word(b"take"), Token::Something]),
    (TAKING, &[Token::Word(b"get"), Token::Something]),
    (
        TAKING,
        &[Token::Word(b"pick"), Token::Word(b"up"), Token::Something],
    ),
    (DROPPING, &[Token::Word(b"drop"), Token::Something]),
    (
        DROPPING,
        &[Token::Word(b"put"), Token::Word(b"down"), Token::Something],
    ),
    (
        PUTTING_ON,
        &[
            Token::Word(b"put"),
            Token::Something,
            Token::Word(b"on"),
            Token::Something,
        ],
    ),
    (
        INSERTING,
        &[
            Token::Word(b"put"),
            Token::Something,
            Token::Word(b"in"),
            Token::Something,
        ],
    ),
    (
        INSERTING,
        &[
            Token::Word(b"put"),
            Token::Something,
            Token::Word(b"into"),
            Token::Something,
        ],
    ),
    (
        INSERTING,
        &[
            Token::Word(b"insert"),
            Token::Something,
            Token::Word(b"into"),
            Token::Something,
        ],
    ),
    (OPENING, &[Token::Word(b"open"), Token::Something]),
    (CLOSING, &[Token::Word(b"close"), Token::Something]),
    (CLOSING, &[Token::Word(b"shut"), Token::Something]),
    (GOING, &[Token::Direction]),
    (GOING, &[Token::Word(b"go"), Token::Direction]),
    (WEARING, &[Token::Word(b"wear"), Token::Something]),
    (
        WEARING,
        &[Token::Word(b"put"), Token::Word(b"on"), Token::Something],
    ),
    (
        TAKING_OFF,
        &[Token::Word(b"take"), Token::Word(b"off"), Token::Something],
    ),
    (TAKING_OFF, &[Token::Word(b"remove"), Token::Something]),
    (TAKING_INVENTORY, &[Token::Word(b"inventory")]),
    (TAKING_INVENTORY, &[Token::Word(b"inv")]),
    (TAKING_INVENTORY, &[Token::Word(b"i")]),
    (WAITING, &[Token::Word(b"wait")]),
    (WAITING, &[Token::Word(b"z")]),
    (JUMPING, &[Token::Word(b"jump")]),
    (
        SWITCHING_ON,
        &[Token::Word(b"switch"), Token::Word(b"on"), Token::Something],
    ),
    (
        SWITCHING_ON,
        &[Token::Word(b"turn"), Token::Word(b"on"), Token::Something],
    ),
    (
        SWITCHING_OFF,
        &[
            Token::Word(b"switch"),
            Token::Word(b"off"),
            Token::Something,
        ],
    ),
    (
        SWITCHING_OFF,
        &[Token::Word(b"turn"), Token::Word(b"off"), Token::Something],
    ),
];

#[tactic(auto, unfolding(play_meaning::specs::StandardGrammar::standard_lines))]
fn rows() -> &'static [LineRow<'static>]
    ensures { map (λ row. line_of row.0 row.1.now) result.now ≡ standard_lines }
{
    &STANDARD_LINES
}

/// A token with a word of its own.
fn kept(alloc: Global, token: Token<'_>) -> Result<KeptToken, AllocError>
    ensures { IfOk result (λ kept. token_meant kept ≡ told_token token.entry) }
{
    match token {
        Token::Word(word) => Ok(KeptToken::Word(TextBytes::copied(alloc, word)?)),
        Token::Something => Ok(KeptToken::Something),
        Token::Direction => Ok(KeptToken::Direction),
    }
}

/// A line with tokens of its own.
fn line_of(alloc: Global, action: u8, tokens: &[Token<'_>]) -> Result<GrammarLine, AllocError>
    ensures { IfOk result (λ line. line_meant line ≡ line_of action tokens.now) }
{
    let mut all = Vec::new(alloc);
    let mut rest = tokens;
    while let [token, behind @ ..] = rest {
        all.push(kept(alloc, *token)?)?;
        rest = behind;
    }
    Ok(GrammarLine {
        action: ActNo::new(action),
        tokens: Listed::new(all),
    })
}

/// The lines that every story understands, in the order in which they are tried.
pub fn standard_lines(alloc: Global) -> Result<Vec<GrammarLine>, AllocError>
    ensures { IfOk result (λ lines. map line_meant lines.items ≡ standard_lines) }
{
    let mut all = Vec::new(alloc);
    let mut rest = rows();
    while let [row, behind @ ..] = rest {
        all.push(line_of(alloc, row.0, row.1)?)?;
        rest = behind;
    }
    Ok(all)
}
