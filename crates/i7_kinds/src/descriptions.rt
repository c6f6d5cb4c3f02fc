//! Texts that describe objects; one alone describes the room that is the subject of the sentence before it.
ghost use Rattle.std.specs.Prelude.{◌≡◌, ℕ, nat_eq, option_copied, IfOk, OnOk};
ghost use Rattle.i7_kinds.specs.Demands.{described_by, description_of, descriptions_of, is_second, second_description, subject_of, told_alone};
ghost use Rattle.i7_claims.specs.Firsts.{first_of, given};
ghost use Rattle.i7_kinds.specs.Views.{found_descriptions, text_at};

use crate::kinds::is_room;
use crate::knowns::Known;
use crate::lent_text::LentText;
use i7_claims::{Numbered, NumberedSentence};
use indexmap::IndexMap;
use std::alloc::{AllocError, Global};

/// An object, and a text that describes it.
#[derive(Drop)]
pub struct Description<'a> {
    pub object: usize,
    pub text: LentText<'a>,
    pub line: u32,
}

/// The number of the object that a sentence is about, if there is one.
pub fn subject_of(fact: &Numbered) -> Option<usize>
    ensures { result ≡ subject_of fact.now }
{
    match fact {
        Numbered::Aside | Numbered::Description(_) | Numbered::Describes { .. } => None,
        Numbered::Being(number) => Some(*number),
        Numbered::Way(way) => Some(way.subject),
        Numbered::Door(door) => Some(door.door),
    }
}

/// What a text alone behind a statement about this object, or about none, describes.
fn told_alone<'a>(
    parents: &[Option<usize>],
    knowns: &[Known],
    before: Option<usize>,
    text: &'a [u8],
    line: u32,
) -> Option<Description<'a>>
    ensures { found_descriptions result ≡ told_alone parents.now knowns.now before text.now line }
{
    let object = before?;
    if !is_room(parents, knowns, object) {
        return None;
    }
    Some(Description {
        object,
        text: LentText::new(text),
        line,
    })
}

/// What a statement behind one about this object, or about none, describes.
fn described_by<'a>(
    parents: &[Option<usize>],
    knowns: &[Known],
    before: Option<usize>,
    statement: &'a NumberedSentence,
) -> Option<Description<'a>>
    ensures { found_descriptions result ≡ described_by parents.now knowns.now before statement.now }
{
    let line = statement.line;
    match &statement.said {
        Numbered::Description(text) => told_alone(parents, knowns, before, text.as_slice(), line),
        Numbered::Describes { object, text } => Some(Description {
            object: *object,
            text: LentText::new(text.as_slice()),
            line,
        }),
        Numbered::Aside | Numbered::Being(_) | Numbered::Way(_) | Numbered::Door(_) => None,
    }
}

/// The texts that describe objects, in order.
pub fn descriptions_of<'a>(
    alloc: Global,
    parents: &[Option<usize>],
    knowns: &[Known],
    statements: &'a [NumberedSentence],
) -> Result<Vec<Description<'a>>, AllocError>
    ensures { IfOk result (λ found. found.items ≡ descriptions_of parents.now knowns.now statements.now) }
{
    let mut descriptions = Vec::new(alloc);
    let mut subject = None;
    let mut rest = statements;
    while let [statement, after @ ..] = rest {
        if let Some(description) = described_by(parents, knowns, subject, statement) {
            descriptions.push(description)?;
        }
        subject = subject_of(&statement.said);
        rest = after;
    }
    Ok(descriptions)
}

/// The texts that describe objects, and each object's first.
#[derive(Drop)]
pub struct Descriptions<'a> {
    all: Vec<Description<'a>>,
    firsts: IndexMap<usize, &'a [u8]>,
    ghost first: { (object : ℕ) → text_at firsts object ≡ description_of all.items object },
}

/// Gives an object its description, unless it has one.
fn describe<'a>(
    firsts: &mut IndexMap<usize, &'a [u8]>,
    description: &Description<'a>,
) -> Result<(), AllocError>
    ensures { OnOk result ((object : ℕ) → text_at firsts.new object ≡ first_of (text_at firsts.old object) (given nat_eq description.now.object description.now.text object)) }
{
    if firsts.get(&description.object).is_none() {
        firsts.insert(description.object, description.text.as_slice())?;
    }
    Ok(())
}

/// Each object's first description.
fn first_descriptions<'a>(
    alloc: Global,
    descriptions: &[Description<'a>],
) -> Result<IndexMap<usize, &'a [u8]>, AllocError>
    ensures { IfOk result (λ firsts. (object : ℕ) → text_at firsts object ≡ description_of descriptions.now object) }
{
    let mut firsts = IndexMap::new(alloc);
    let mut rest = descriptions;
    while let [description, after @ ..] = rest {
        describe(&mut firsts, description)?;
        rest = after;
    }
    Ok(firsts)
}

impl<'a> Descriptions<'a> {
    ghost use Rattle.i7_kinds.specs.Described.{descriptions_in};

    /// The descriptions that the statements give.
    pub fn new(
        alloc: Global,
        parents: &[Option<usize>],
        knowns: &[Known],
        statements: &'a [NumberedSentence],
    ) -> Result<Descriptions<'a>, AllocError>
        ensures { IfOk result (λ found. descriptions_in found ≡ descriptions_of parents.now knowns.now statements.now) }
    {
        let all = descriptions_of(alloc, parents, knowns, statements)?;
        let firsts = first_descriptions(alloc, all.as_slice())?;
        Ok(Descriptions { all, firsts })
    }

    /// All of them, in order.
    pub fn all(&self) -> &[Description<'a>]
        ensures { result.now ≡ descriptions_in self.now }
    {
        self.all.as_slice()
    }

    /// The object's first description.
    pub fn of(&self, object: usize) -> Option<&'a [u8]>
        ensures { option_copied result ≡ description_of (descriptions_in self.now) object }
    {
        self.firsts.get(&object).copied()
    }

    /// The line of the first text that describes an object otherwise than its first description.
    pub fn second(&self) -> Option<u32>
        ensures { result ≡ second_description (descriptions_in self.now) }
    {
        let mut rest = self.all.as_slice();
        while let [description, after @ ..] = rest {
            if self.is_second(description) {
                return Some(description.line);
            }
            rest = after;
        }
        None
    }

    /// Whether the text isn't the object's first description.
    fn is_second(&self, description: &Description<'a>) -> bool
        ensures { result ≡ is_second (descriptions_in self.now) description.now }
    {
        match self.of(description.object) {
            None => true,
            Some(first) => description.text.as_slice() != first,
        }
    }
}
