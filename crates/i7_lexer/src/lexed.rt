//! The tokens of a source.
ghost use Rattle.std.specs.Prelude.{◌≡◌};

use crate::PackedToken;
use std::marker::Model;

/// The tokens of a source, in order.
#[derive(Drop)]
pub struct Lexed {
    tokens: Vec<PackedToken>,
}

impl Model for Lexed {
    ghost use Rattle.std.specs.Prelude.{List};
    ghost use Rattle.i7_lexer.specs.declared.token.Token.{Token};

    ghost Value = { List Token };

    ghost view = { λ l. l.tokens.items };
}

impl Lexed {
    /// These tokens.
    pub(crate) fn new(tokens: Vec<PackedToken>) -> Lexed
        ensures { result ≡ tokens.items }
    {
        Lexed { tokens }
    }

    /// The tokens, in the source's order.
    pub fn tokens(&self) -> &[PackedToken]
        ensures { result.now ≡ self.now }
    {
        self.tokens.as_slice()
    }
}
