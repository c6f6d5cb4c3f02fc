//! What a session answers to a line.
ghost use Rattle.std.specs.Prelude.{◌≡◌};

use crate::line_text::LineText;
use std::marker::Model;
use world_meaning::ReplyKind;

/// The text and the kind of an answer.
#[derive(Drop)]
pub struct Reply {
    text: LineText,
    kind: ReplyKind,
}

impl Model for Reply {
    ghost use Rattle.story_player.specs.Spoken.{Spoken};

    ghost Value = { Spoken };

    ghost view = { λ reply. record { text = reply.text.said; kind = reply.kind } };
}

impl Reply {
    /// An answer that says this.
    pub(crate) fn new(text: LineText, kind: ReplyKind) -> Reply
        ensures { result ≡ record { text = text.said; kind = kind } }
    {
        Reply { text, kind }
    }

    /// The text, its line breaks included.
    pub fn text(&self) -> &[u8]
        ensures { result.now ≡ self.now.text }
    {
        self.text.as_slice()
    }

    /// What became of the last command of the line that was done.
    pub fn kind(&self) -> ReplyKind
        ensures { result ≡ self.now.kind }
    {
        self.kind
    }
}
