//! A command of a golden transcript, and both answers to it.
ghost use Rattle.std.specs.Prelude.{◌≡◌, bytes_eq};

/// A command, the answer that was kept and what the story says to it; the opening has no command.
#[derive(Drop)]
pub struct Exchange<'a> {
    /// The line of the kept file at which the command stands, or the opening begins, from 1.
    pub line: u32,
    /// The command, without its line break.
    pub command: Option<&'a [u8]>,
    /// The answer as it was kept.
    pub kept: &'a [u8],
    /// The answer as it is now.
    pub said: Vec<u8>,
}

impl Exchange<'_> {
    /// Whether the story answers as it was kept.
    pub fn is_same(&self) -> bool
        ensures { result ≡ bytes_eq self.now.kept.now self.now.said.items }
    {
        self.kept == self.said.as_slice()
    }
}
