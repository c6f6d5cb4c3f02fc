//! What words say that something is: either-or properties, and then perhaps a kind.
ghost use Rattle.std.specs.Prelude.{◌≡◌, [], IfOk};
ghost use Rattle.i7_claims.specs.NameScans.{IsShort, standing_at};
ghost use Rattle.i7_claims.specs.Wording.{can_begin, can_cut, column_of, cut, cut_words, ends_name, is_end, looked, may_end, parts_word, some_name, uncut, usual_said, what_said};

use crate::claim::Quality;
use crate::phrases::{
    first_word, is_phrase, is_too_long, kind_said, last_word, phrase_said, without_blank,
};
use crate::standings::Known;
use std::alloc::{AllocError, Global};
use std::marker::Model;
use world_meaning::{Listed, TextBytes, is_spelled, lowered};

/// What words say: either-or properties, in order, and a kind, if they name one.
#[derive(Drop)]
pub struct What {
    pub qualities: Listed<Quality>,
    pub kind: Option<TextBytes>,
}

/// How far words are cut into names.
#[derive(Drop)]
struct Cutting {
    /// The bytes of a name so far.
    front: Vec<u8>,
    qualities: Vec<Quality>,
}

/// Whether a word ends before these bytes.
fn is_end(after: &[u8]) -> bool
    ensures { result ≡ is_end after.now }
{
    match after {
        [] => true,
        [byte, ..] => *byte == b' ',
    }
}

/// Whether words of which so many bytes are left can be cut, by the column that tells it.
fn looked(column: &[bool], left: usize) -> bool
    ensures { result ≡ looked column.now left }
{
    column.get(left).copied().unwrap_or(false)
}

/// Whether these bytes part `switched off`, which is one word.
fn parts_word(front: &[u8], after: &[u8]) -> bool
    ensures { result ≡ parts_word front.now after.now }
{
    is_spelled(first_word(without_blank(after)), b"off")
        && is_spelled(last_word(front), b"switched")
}

/// Whether a name may end between these bytes: a word does, and those behind can be cut.
fn may_end(column: &[bool], front: &[u8], after: &[u8]) -> bool
    ensures { result ≡ may_end column.now front.now after.now }
{
    is_end(after) && looked(column, after.len()) && !parts_word(front, after)
}

/// Whether the bytes in front are a name, and those behind it can be cut.
fn ends_name(
    known: &Known<'_>,
    is_joined: bool,
    column: &[bool],
    front: &[u8],
    after: &[u8],
) -> bool
    ensures { result ≡ ends_name (standing_at known.now) is_joined column.now front.now after.now }
{
    may_end(column, front, after) && is_phrase(known, is_joined, front)
}

/// Whether a name stands at the words' front behind which the rest can be cut.
fn some_name(
    alloc: Global,
    known: &Known<'_>,
    most: usize,
    is_joined: bool,
    column: &[bool],
    words: &[u8],
) -> Result<bool, AllocError>
    requires short { IsShort most (standing_at known.now) }
    ensures { IfOk result (λ is. is ≡ some_name (standing_at known.now) is_joined column.now [] words.now) }
{
    let mut front = Vec::new(alloc);
    let mut rest = words;
    while let [byte, after @ ..] = rest {
        if is_too_long(most, front.as_slice()) {
            return Ok(false);
        }
        front.push(*byte)?;
        if ends_name(known, is_joined, column, front.as_slice(), after) {
            return Ok(true);
        }
        rest = after;
    }
    Ok(false)
}

/// Whether words that begin with a name can be cut, by the column for their ends.
#[tactic(auto, unfolding(crate::specs::Wording::can_begin))]
fn can_begin(
    alloc: Global,
    known: &Known<'_>,
    most: usize,
    is_joined: bool,
    column: &[bool],
    words: &[u8],
) -> Result<bool, AllocError>
    requires short { IsShort most (standing_at known.now) }
    ensures { IfOk result (λ can. can ≡ can_begin (standing_at known.now) is_joined column.now words.now) }
{
    let kind = kind_said(alloc, known, most, is_joined, words)?;
    if kind.is_some() {
        return Ok(true);
    }
    some_name(alloc, known, most, is_joined, column, words)
}

/// Whether words can be cut, by the column for their ends.
fn can_cut(
    alloc: Global,
    known: &Known<'_>,
    most: usize,
    is_joined: bool,
    column: &[bool],
    words: &[u8],
) -> Result<bool, AllocError>
    requires short { IsShort most (standing_at known.now) }
    ensures { IfOk result (λ can. can ≡ can_cut (standing_at known.now) is_joined column.now words.now) }
{
    match words {
        [] => Ok(true),
        [byte, after @ ..] => {
            if *byte == b' ' {
                Ok(looked(column, after.len()))
            } else {
                can_begin(alloc, known, most, is_joined, column, words)
            }
        }
    }
}

/// Of each count of bytes that are left, whether they can be cut.
fn column_of(
    alloc: Global,
    known: &Known<'_>,
    most: usize,
    is_joined: bool,
    words: &[u8],
) -> Result<Vec<bool>, AllocError>
    requires short { IsShort most (standing_at known.now) }
    ensures { IfOk result (λ column. column.items ≡ column_of (standing_at known.now) is_joined words.now) }
{
    let mut column = Vec::with_capacity(alloc, words.len() + 1)?;
    column.push(true)?;
    let mut place = words.len();
    while place > 0 {
        place -= 1;
        let (_, rest) = words.split_at(place);
        let can = can_cut(alloc, known, most, is_joined, column.as_slice(), rest)?;
        column.push(can)?;
    }
    Ok(column)
}

impl Model for Cutting {
    ghost use Rattle.i7_claims.specs.Wording.{Cut};

    ghost Value = { Cut };

    ghost view = { λ c. record { front = c.front.items; qualities = c.qualities.items } };
}

impl Cutting {
    ghost use Rattle.std.specs.Prelude.{[], OnOk};
    ghost use Rattle.i7_claims.specs.Wording.{ended, finished, kind_at, taken, with_quality};

    fn new(alloc: Global) -> Cutting
        ensures { result ≡ uncut }
    {
        Cutting {
            front: Vec::new(alloc),
            qualities: Vec::new(alloc),
        }
    }

    /// Takes up what a whole name says.
    fn take_quality(&mut self, alloc: Global, quality: Option<Quality>) -> Result<(), AllocError>
        ensures { OnOk result (self.new ≡ with_quality self.old quality) }
    {
        if let Some(quality) = quality {
            self.qualities.push(quality)?;
            self.front = Vec::new(alloc);
        }
        Ok(())
    }

    /// Ends a name, where those behind it can be cut.
    fn end_name(
        &mut self,
        alloc: Global,
        known: &Known<'_>,
        is_joined: bool,
        column: &[bool],
        after: &[u8],
    ) -> Result<(), AllocError>
        ensures { OnOk result (self.new ≡ ended (standing_at known.now) is_joined column.now self.old after.now) }
    {
        if !may_end(column, self.front.as_slice(), after) {
            return Ok(());
        }
        let quality = phrase_said(alloc, known, is_joined, self.front.as_slice())?;
        self.take_quality(alloc, quality)
    }

    /// Takes a byte, with those behind it.
    fn take(
        &mut self,
        alloc: Global,
        known: &Known<'_>,
        is_joined: bool,
        column: &[bool],
        byte: u8,
        after: &[u8],
    ) -> Result<(), AllocError>
        ensures { OnOk result (self.new ≡ taken (standing_at known.now) is_joined column.now self.old byte after.now) }
    {
        if self.front.is_empty() && byte == b' ' {
            return Ok(());
        }
        self.front.push(byte)?;
        self.end_name(alloc, known, is_joined, column, after)
    }

    /// The kind that all the rest of the words name.
    fn kind_at(
        &self,
        alloc: Global,
        known: &Known<'_>,
        most: usize,
        is_joined: bool,
        words: &[u8],
    ) -> Result<Option<TextBytes>, AllocError>
        requires short { IsShort most (standing_at known.now) }
        ensures { IfOk result (λ kind. kind ≡ kind_at (standing_at known.now) is_joined self.now words.now) }
    {
        if self.front.is_empty() && !is_end(words) {
            kind_said(alloc, known, most, is_joined, words)
        } else {
            Ok(None)
        }
    }

    fn finished(self) -> Option<What>
        ensures { result ≡ finished self }
    {
        if self.front.is_empty() {
            Some(What {
                qualities: Listed::new(self.qualities),
                kind: None,
            })
        } else {
            None
        }
    }
}

/// Cuts words into names from left to right, each the shortest behind which the rest can be cut, by the column that
/// tells it; but a kind that is all the rest goes first.
fn cut_words(
    alloc: Global,
    known: &Known<'_>,
    most: usize,
    is_joined: bool,
    column: &[bool],
    words: &[u8],
) -> Result<Option<What>, AllocError>
    requires short { IsShort most (standing_at known.now) }
    ensures { IfOk result (λ what. what ≡ cut_words (standing_at known.now) is_joined column.now uncut words.now) }
{
    let mut cutting = Cutting::new(alloc);
    let mut rest = words;
    while let [byte, after @ ..] = rest {
        if let Some(kind) = cutting.kind_at(alloc, known, most, is_joined, rest)? {
            return Ok(Some(What {
                qualities: Listed::new(cutting.qualities),
                kind: Some(kind),
            }));
        }
        cutting.take(alloc, known, is_joined, column, *byte, after)?;
        rest = after;
    }
    Ok(cutting.finished())
}

/// What words say, if they can be cut into names.
#[tactic(auto, unfolding(crate::specs::Wording::cut))]
fn cut(
    alloc: Global,
    known: &Known<'_>,
    most: usize,
    is_joined: bool,
    words: &[u8],
) -> Result<Option<What>, AllocError>
    requires short { IsShort most (standing_at known.now) }
    ensures { IfOk result (λ what. what ≡ cut (standing_at known.now) is_joined words.now) }
{
    let column = column_of(alloc, known, most, is_joined, words)?;
    if !looked(column.as_slice(), words.len()) {
        return Ok(None);
    }
    let what = cut_words(alloc, known, most, is_joined, column.as_slice(), words)?;
    Ok(what)
}

/// What words say that something is, where no name has more bytes than this.
pub fn what_said(
    alloc: Global,
    known: &Known<'_>,
    most: usize,
    words: &[u8],
) -> Result<Option<What>, AllocError>
    requires short { IsShort most (standing_at known.now) }
    ensures { IfOk result (λ what. what ≡ what_said (standing_at known.now) words.now) }
{
    let words = lowered(alloc, words)?;
    cut(alloc, known, most, false, words.as_slice())
}

/// What words behind `usually` say, names joined by `and`.
pub fn usual_said(
    alloc: Global,
    known: &Known<'_>,
    most: usize,
    words: &[u8],
) -> Result<Option<What>, AllocError>
    requires short { IsShort most (standing_at known.now) }
    ensures { IfOk result (λ what. what ≡ usual_said (standing_at known.now) words.now) }
{
    let lowered = lowered(alloc, words)?;
    let mut words = Vec::from_slice(alloc, b"and ")?;
    words.extend_from_slice(lowered.as_slice())?;
    cut(alloc, known, most, true, words.as_slice())
}
