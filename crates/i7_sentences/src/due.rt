//! What the phrases of a body so far want of the next.
ghost use Rattle.std.specs.Prelude.{◌≡◌};
ghost use Rattle.i7_sentences.specs.Dues.{is_after_then, is_awaiting, is_deeper, is_done, is_then, lacks_deeper, line_due, wants_phrase};

/// What the phrases so far want of the next.
#[derive(Clone, Copy)]
pub enum DueKind {
    /// A phrase, behind a rule's head.
    First,
    /// Nothing.
    Free,
    /// A deeper line.
    Deeper,
    /// A phrase, behind `if C,`.
    Then,
    /// A phrase, behind `otherwise`.
    Else,
    /// Nothing, but an inline `otherwise` of the same indent may stand here.
    AfterThen,
}

/// What the next phrase has to be, the indent that it is measured by, and the line that wants it.
#[derive(Clone, Copy)]
pub struct Due {
    pub kind: DueKind,
    pub indent: u32,
    pub line: u32,
}

/// Whether a phrase is due that belongs to an `if C,` or an inline `otherwise` in front.
pub fn wants_phrase(kind: DueKind) -> bool
    ensures { result ≡ wants_phrase kind }
{
    match kind {
        DueKind::Then | DueKind::Else => true,
        _ => false,
    }
}

/// Whether an `if C,` stands before.
pub fn is_then(kind: DueKind) -> bool
    ensures { result ≡ is_then kind }
{
    match kind {
        DueKind::Then => true,
        _ => false,
    }
}

/// Whether the phrase of an inline `if` stands before.
fn is_after_then(kind: DueKind) -> bool
    ensures { result ≡ is_after_then kind }
{
    match kind {
        DueKind::AfterThen => true,
        _ => false,
    }
}

/// Whether a colon stands before.
fn is_deeper(kind: DueKind) -> bool
    ensures { result ≡ is_deeper kind }
{
    match kind {
        DueKind::Deeper => true,
        _ => false,
    }
}

/// Whether a body may end here.
fn is_done(kind: DueKind) -> bool
    ensures { result ≡ is_done kind }
{
    match kind {
        DueKind::Free | DueKind::AfterThen => true,
        _ => false,
    }
}

/// Whether an inline `otherwise` of this indent may stand here.
pub fn is_awaiting(due: Due, indent: u32) -> bool
    ensures { result ≡ is_awaiting due indent }
{
    is_after_then(due.kind) && due.indent == indent
}

/// Whether a block's deeper line is due and this isn't one.
pub fn lacks_deeper(due: Due, indent: u32) -> bool
    ensures { result ≡ lacks_deeper due indent }
{
    is_deeper(due.kind) && !(due.indent < indent)
}

/// The line of what still wants a phrase at a body's end.
pub fn line_due(due: Due) -> Option<u32>
    ensures { result ≡ line_due due }
{
    if is_done(due.kind) {
        None
    } else {
        Some(due.line)
    }
}
