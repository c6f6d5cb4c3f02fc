//! Whether bytes that are read one by one hold a command.
ghost use Rattle.std.specs.Prelude.{◌≡◌, fold, if◌then◌else◌};
ghost use Rattle.command_parser.specs.Cutting.{ends_word};
ghost use Rattle.command_parser.specs.Scanning.{holds_command, is_letter, scan_ended, scan_spelled, scan_with};
ghost use Rattle.command_parser.specs.declared.command_scan.CommandScan.TheVariants.{Command, Cut};

/// What is known of a line by the bytes so far.
#[derive(Clone, Copy, PartialEq, Eq)]
pub enum CommandScan {
    /// No command, and no unfinished word.
    Cut,
    /// No command, and the unfinished word is `t`.
    T,
    /// No command, and the unfinished word is `th`.
    Th,
    /// No command, and the unfinished word is `the`.
    The,
    /// No command, and the unfinished word is `then`.
    Then,
    /// A command, whatever follows.
    Command,
}

/// Whether a word goes no further than the byte.
pub(crate) fn ends_word(byte: u8) -> bool
    ensures { result ≡ ends_word byte }
{
    byte == b' ' || byte == b'\t' || byte == b'.'
}

/// The next front of `then`, if the byte is its letter, and else a command.
fn next_if(byte: u8, letter: u8, next: CommandScan) -> CommandScan
    ensures { result ≡ if is_letter byte letter then next else Command }
{
    if byte.to_ascii_lowercase() == letter {
        next
    } else {
        CommandScan::Command
    }
}

impl CommandScan {
    /// No byte so far.
    pub fn new() -> CommandScan
        ensures { result ≡ Cut }
    {
        CommandScan::Cut
    }

    /// Behind a byte that ends a word.
    fn ended(self) -> CommandScan
        ensures { result ≡ scan_ended self }
    {
        match self {
            CommandScan::Cut | CommandScan::Then => CommandScan::Cut,
            _ => CommandScan::Command,
        }
    }

    /// Behind a byte of a word.
    fn spelled(self, byte: u8) -> CommandScan
        ensures { result ≡ scan_spelled self byte }
    {
        match self {
            CommandScan::Cut => next_if(byte, b't', CommandScan::T),
            CommandScan::T => next_if(byte, b'h', CommandScan::Th),
            CommandScan::Th => next_if(byte, b'e', CommandScan::The),
            CommandScan::The => next_if(byte, b'n', CommandScan::Then),
            CommandScan::Then | CommandScan::Command => CommandScan::Command,
        }
    }

    /// Behind one byte more.
    pub fn after(self, byte: u8) -> CommandScan
        ensures { result ≡ scan_with self byte }
    {
        if ends_word(byte) {
            self.ended()
        } else {
            self.spelled(byte)
        }
    }

    /// Behind more bytes.
    pub fn over(self, bytes: &[u8]) -> CommandScan
        ensures { result ≡ fold scan_with self bytes.now }
    {
        let mut scan = self;
        let mut rest = bytes;
        while let [byte, after @ ..] = rest {
            scan = scan.after(*byte);
            rest = after;
        }
        scan
    }

    /// Whether the bytes hold a command.
    pub fn has_command(self) -> bool
        ensures { result ≡ holds_command self }
    {
        !matches!(self, CommandScan::Cut | CommandScan::Then)
    }
}
