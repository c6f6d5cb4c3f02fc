//! The line that is being typed: its bytes so far, of which only a part is kept where it is long.
use arrayvec::ArrayVec;
use command_parser::CommandScan;
use std::marker::Model;

/// The bytes that are kept: a line that is no longer is kept whole.
const MOST_KEPT: usize = 256;

/// A line as it was typed, in front of its line break.
#[derive(Clone, Copy)]
pub enum Typed<'a> {
    /// All of its bytes.
    Whole(&'a [u8]),
    /// A line of over 255 bytes, of which it is known whether it holds a command.
    Overlong { has_command: bool },
}

/// A line that is being typed. Bytes that are let go are scanned for a command; there are over 255 of them, if any.
#[derive(Drop)]
pub struct TypedLine {
    gone: Option<CommandScan>,
    kept: ArrayVec<u8, MOST_KEPT>,
}

impl Model for TypedLine {
    ghost use Rattle.story_player.specs.Typed.{Typing};

    ghost Value = { Typing };

    ghost view = { λ line. record { gone = line.gone; kept = line.kept.items } };
}

ghost use Rattle.std.specs.Prelude.{◌≡◌, ◌<◌, ◌++◌, ◌∷◌, [], false, length};
ghost use Rattle.std.specs.Str.Lines.{strip_carriage_return};
ghost use Rattle.story_player.specs.Typed.{gone_with, is_full, is_untyped, most_kept, nothing_typed, scan_of, told, told_of};

impl TypedLine {
    /// No byte so far.
    pub fn new() -> TypedLine
        ensures { result ≡ nothing_typed }
    {
        TypedLine {
            gone: None,
            kept: ArrayVec::new(),
        }
    }

    /// Whether no byte was typed.
    pub fn is_empty(&self) -> bool
        ensures { result ≡ is_untyped self.now }
    {
        self.gone.is_none() && self.kept.is_empty()
    }

    /// Whether bytes must be let go before the next is kept.
    pub fn is_full(&self) -> bool
        ensures full { result ≡ is_full self.now }
        ensures room { result ≡ false → length self.now.kept < most_kept }
    {
        self.kept.is_full()
    }

    /// Keeps the next byte.
    pub fn push(&mut self, byte: u8)
        requires { length self.old.kept < most_kept }
        ensures { self.new ≡ record { gone = self.old.gone; kept = self.old.kept ++ byte ∷ [] } }
    {
        self.kept.push(byte);
    }

    /// The bytes that are kept.
    pub fn kept(&self) -> &[u8]
        ensures { result.now ≡ self.now.kept }
    {
        self.kept.as_slice()
    }

    /// What is known of the bytes that were let go.
    fn scan(&self) -> CommandScan
        ensures { result ≡ scan_of self.now.gone }
    {
        match self.gone {
            None => CommandScan::new(),
            Some(scan) => scan,
        }
    }

    /// Lets go of the bytes that are kept.
    pub fn let_go(&mut self)
        ensures { self.new ≡ record { gone = gone_with self.old.gone self.old.kept; kept = [] } }
    {
        self.gone = Some(self.scan().over(self.kept.as_slice()));
        self.kept.clear();
    }

    /// Drops the carriage return in front of the line break.
    pub fn drop_return(&mut self)
        ensures { self.new ≡ record { gone = self.old.gone; kept = strip_carriage_return self.old.kept } }
    {
        if self.kept.last() == Some(&b'\r') {
            let _ = self.kept.pop();
        }
    }

    /// The line as it was typed: whole, or what is known of it.
    pub fn typed(&self) -> Typed<'_>
        ensures { told result ≡ told_of self.now }
    {
        match self.gone {
            None => Typed::Whole(self.kept.as_slice()),
            Some(scan) => Typed::Overlong {
                has_command: scan.over(self.kept.as_slice()).has_command(),
            },
        }
    }
}
