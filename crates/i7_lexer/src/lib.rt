//! From the bytes of a source to its tokens: texts, words and marks, each with its line and with
//! how it stands on it. What no source may hold (bytes that are no text, a text or a comment
//! without its end, a line that is too deep) is refused here.
//!
//! What each lexeme goes through, from its first byte to its token, is marked `inline(always)`: as one function it
//! takes a quarter less.
#![tactic(auto)]

mod byte_class;
mod cursor;
mod indents;
mod joins;
mod laws;
mod lexed;
mod lexeme;
mod lexer;
mod packed;
mod placed;
mod short_bytes;
mod source;
mod span;
mod survey;
mod text;
mod token;

pub use byte_class::is_letter;
pub use laws::{
    lines_are_counted, one_reading, one_refusal, spelled_or_refused, texts_are_folded,
    token_lines_rise,
};
pub use lexed::Lexed;
pub use lexer::lex;
pub use packed::PackedToken;
pub use span::Span;
pub use token::{Start, Token, TokenKind};
