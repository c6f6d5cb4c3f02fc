//! A kept transcript, read from its front as it is played.
ghost use Rattle.std.specs.Prelude.{◌≡◌, ◌-◌, ◌++◌, ◌<◌, ◌≤◌, length};
ghost use Rattle.std.specs.Option.{ForSome};
ghost use Rattle.golden_transcripts.specs.Transcripts.{IsBehind};

/// What stands in front of each command.
const PROMPT: &[u8] = b"\n>";

/// With this a line begins that is a comment, in front of a transcript.
const COMMENT: &[u8] = b"* ";

/// An empty line, and behind it a comment.
const NEXT: &[u8] = b"\n* ";

/// What is left of a kept file, and the line at which that begins.
#[derive(Clone, Copy, Debug)]
pub struct Kept<'a> {
    pub rest: &'a [u8],
    pub line: u32,
}

/// How many line breaks stand in front.
fn breaks_in_front(bytes: &[u8]) -> usize
    ensures { result ≤ length bytes.now }
{
    match bytes.iter().position(|byte| *byte != b'\n') {
        Some(count) => count,
        None => bytes.len(),
    }
}

/// Whether nothing but line breaks stands in front of the file's end, or of the next transcript's comment.
fn is_end(bytes: &[u8]) -> bool {
    let breaks = breaks_in_front(bytes);
    breaks == bytes.len() || breaks > 0 && bytes.split_at(breaks).1.starts_with(COMMENT)
}

/// Whether the answer stands in front, whole, with what follows an answer behind it.
fn is_answered(bytes: &[u8], said: &[u8], has_ended: bool) -> bool {
    match bytes.strip_prefix(said) {
        Some(behind) if has_ended => is_end(behind),
        Some(behind) => behind.starts_with(PROMPT),
        None => false,
    }
}

/// Whether a line closes a transcript: the story's end is told in it, or it is a prompt alone.
fn closes(line: &[u8]) -> bool {
    line == b">".as_slice() || line.starts_with(b"*** ") && line.ends_with(b" ***")
}

/// The bytes in front of a line that closes nothing: up to the first prompt, if prompts count, and else up to the break behind the
/// first line that closes a transcript and has another transcript's comment below it.
fn up_to_end(bytes: &[u8], has_prompts: bool) -> usize {
    let (mut begins, mut last) = (0, b'\n');
    for (place, byte) in bytes.iter().enumerate() {
        let (front, rest) = bytes.split_at(place);
        if last == b'\n' {
            let is_next = rest.starts_with(NEXT) && closes(line_before(front, begins));
            if is_next || has_prompts && rest.starts_with(PROMPT) {
                return place;
            }
            begins = place;
        }
        last = *byte;
    }
    bytes.len()
}

/// The last line of a text, which begins at this place, without its line break.
fn line_before(front: &[u8], begins: usize) -> &[u8] {
    let line = front.split_at(begins.min(front.len())).1;
    match line.strip_suffix(b"\n") {
        Some(line) => line,
        None => line,
    }
}

/// The bytes of the comments in front, and of the line breaks in front of them, up to where the opening stands.
fn comments_in_front(bytes: &[u8], opening: &[u8], has_ended: bool) -> usize {
    let breaks = breaks_in_front(bytes);
    let has_breaks = bytes.split_at(breaks).1.starts_with(COMMENT);
    let mut last = b'\n';
    for (place, byte) in bytes.iter().enumerate() {
        let rest = bytes.split_at(place).1;
        let is_comment = rest.starts_with(COMMENT) || has_breaks && place < breaks;
        if last == b'\n' && (!is_comment || is_answered(rest, opening, has_ended)) {
            return place;
        }
        last = *byte;
    }
    bytes.len()
}

impl<'a> Kept<'a> {
    /// A kept file, from its front.
    pub fn new(file: &'a [u8]) -> Kept<'a>
        ensures { result.rest.now ≡ file.now }
    {
        Kept {
            rest: file,
            line: 1,
        }
    }

    /// Takes so many bytes from the front, at most all that are left.
    fn take(&mut self, count: usize) -> &'a [u8]
        ensures parts { self.old.rest.now ≡ result.now ++ self.new.rest.now }
        ensures fewer { length self.new.rest.now ≡ length self.old.rest.now - count }
    {
        let (front, behind) = self.rest.split_at(count.min(self.rest.len()));
        let breaks = front.iter().filter(|byte| **byte == b'\n').count();
        self.line = self
            .line
            .saturating_add(u32::try_from(breaks).unwrap_or(u32::MAX));
        self.rest = behind;
        front
    }

    /// Takes the comments in front of a transcript that begins with this opening.
    pub fn take_comments(&mut self, opening: &[u8], has_ended: bool) -> &'a [u8]
        ensures { self.old.rest.now ≡ result.now ++ self.new.rest.now }
    {
        self.take(comments_in_front(self.rest, opening, has_ended))
    }

    /// Takes what is left of a transcript where the story has ended.
    pub fn take_left(&mut self) -> &'a [u8]
        ensures { self.old.rest.now ≡ result.now ++ self.new.rest.now }
    {
        let count = if is_end(self.rest) {
            0
        } else {
            up_to_end(self.rest, false)
        };
        self.take(count)
    }

    /// Takes the line breaks in front.
    pub fn take_breaks(&mut self) -> &'a [u8]
        ensures { self.old.rest.now ≡ result.now ++ self.new.rest.now }
    {
        self.take(breaks_in_front(self.rest))
    }

    /// Takes an answer: this one, if it stands there whole and what follows an answer behind it, else what is kept in its place.
    pub fn take_answer(&mut self, said: &[u8], has_ended: bool) -> &'a [u8]
        ensures { self.old.rest.now ≡ result.now ++ self.new.rest.now }
    {
        let count = if is_answered(self.rest, said, has_ended) {
            said.len()
        } else {
            up_to_end(self.rest, true)
        };
        self.take(count)
    }

    /// Takes the line at the front, and tells it without its line break.
    fn take_line(&mut self) -> &'a [u8]
        ensures { IsBehind self.old.rest.now self.new.rest.now }
    {
        let count = match self.rest.iter().position(|byte| *byte == b'\n') {
            Some(place) => place,
            None => self.rest.len(),
        };
        let line = self.take(count);
        self.take(1);
        line
    }

    /// Takes the prompt and the command behind it, and tells its line; none where no prompt stands there, behind the last, and where
    /// play is over.
    pub fn take_command(&mut self, is_over: bool) -> Option<(u32, &'a [u8])>
        ensures behind { IsBehind self.old.rest.now self.new.rest.now }
        ensures shorter { ForSome result (λ _. length self.new.rest.now < length self.old.rest.now) }
    {
        if is_over || !self.rest.starts_with(PROMPT) {
            return None;
        }
        self.take(PROMPT.len());
        if is_end(self.rest) {
            return None;
        }
        let line = self.line;
        Some((line, self.take_line()))
    }
}
