//! The names that a source declares, by number, each with the line that declares it; and what its sentences say is usual.
use i7_actions::STANDARD_ACTIONS;
use i7_claims::{
    Claim, Claimed, FIRST_OF_AUTHOR, Fact, Sort, Standing, Value, kind_names, names_as,
};
use i7_sentences::{Assertion, Sentence, WordList};
use object_words::Strings;
use std::alloc::{AllocError, Global};

/// A name, and the line that declares it; none of what is built in.
#[derive(Drop)]
pub struct Declared {
    pub name: Vec<u8>,
    pub line: Option<u32>,
}

/// A second name of an either-or property, if it has one: `closed` beside `open`.
pub type SecondName = Option<Vec<u8>>;

/// What is usually so of objects of a kind.
#[derive(Drop)]
pub struct UsualTold {
    pub kind: Vec<u8>,
    /// The property by its first name.
    pub property: Vec<u8>,
    pub value: Value,
    pub line: u32,
}

/// The names of a source.
#[derive(Drop)]
pub struct Naming {
    pub kinds: Vec<Declared>,
    pub flags: Vec<Declared>,
    pub second_names: Vec<SecondName>,
    pub numbers: Vec<Declared>,
    pub values: Vec<Declared>,
    pub variables: Vec<Declared>,
    pub scenes: Vec<Declared>,
    pub rulebooks: Vec<Declared>,
    pub actions: Vec<Declared>,
    pub usuals: Vec<UsualTold>,
    /// Of each object, by number, the line that names it first.
    pub objects: Vec<Option<u32>>,
}

/// What is declared of a name.
#[derive(Clone, Copy)]
enum Sought {
    Kind,
    Of(Sort),
}

/// Whether a name stands for something of a sort.
fn is_of(sort: Sort, standing: &Standing) -> bool {
    match standing {
        Standing::First(_) => sort == Sort::EitherOr,
        Standing::Number => sort == Sort::Number,
        Standing::Variable => sort == Sort::Variable,
        Standing::Scene(_) => sort == Sort::Scene,
        Standing::ValueKind => sort == Sort::ValueKind,
        _ => false,
    }
}

/// Whether a fact declares this name.
fn declares(fact: &Fact, sought: Sought, name: &[u8]) -> bool {
    match (fact, sought) {
        (Fact::Lies(lying), Sought::Kind) => lying.kind.as_slice() == name,
        (Fact::Rulebook(own), Sought::Of(Sort::Rulebook)) => own.as_slice() == name,
        (Fact::Stands(naming), Sought::Of(sort)) => {
            is_of(sort, &naming.standing) && naming.name.as_slice() == name
        }
        _ => false,
    }
}

/// The line that declares a name first.
fn line_of(claims: &[Claim], sought: Sought, name: &[u8]) -> Option<u32> {
    for claim in claims {
        if declares(&claim.fact, sought, name) {
            return Some(claim.line);
        }
    }
    None
}

/// The names of a sort with their lines.
fn declared_by(
    alloc: Global,
    claims: &[Claim],
    sought: Sought,
    names: &[Vec<u8>],
) -> Result<Vec<Declared>, AllocError> {
    let mut all = Vec::new(alloc);
    for name in names {
        all.push(Declared {
            line: line_of(claims, sought, name.as_slice()),
            name: Vec::from_slice(alloc, name.as_slice())?,
        })?;
    }
    Ok(all)
}

/// The names of a sort with their lines, those that are built in first.
fn sort_of(alloc: Global, claims: &[Claim], sort: Sort) -> Result<Vec<Declared>, AllocError> {
    let names = names_as(alloc, sort, claims)?;
    declared_by(alloc, claims, Sought::Of(sort), names.as_slice())
}

/// The names of the kinds with their lines.
fn kinds_of(alloc: Global, claims: &[Claim]) -> Result<Vec<Declared>, AllocError> {
    let names: Strings = kind_names(alloc, claims)?;
    declared_by(alloc, claims, Sought::Kind, names.as_slice())
}

/// The second name that is told with a first.
fn second_in(alloc: Global, standing: &Standing) -> Result<SecondName, AllocError> {
    match standing {
        Standing::First(Some(second)) => Ok(Some(Vec::from_slice(alloc, second.as_slice())?)),
        _ => Ok(None),
    }
}

/// The second name of an either-or property.
fn second_name(
    alloc: Global,
    claimed: &Claimed<'_>,
    first: &[u8],
) -> Result<SecondName, AllocError> {
    for naming in claimed.built_in() {
        if is_of(Sort::EitherOr, &naming.standing) && naming.name.as_slice() == first {
            return second_in(alloc, &naming.standing);
        }
    }
    for claim in claimed.claims() {
        if let Fact::Stands(naming) = &claim.fact
            && is_of(Sort::EitherOr, &naming.standing)
            && naming.name.as_slice() == first
        {
            return second_in(alloc, &naming.standing);
        }
    }
    Ok(None)
}

/// The second names of either-or properties.
fn second_names(
    alloc: Global,
    claimed: &Claimed<'_>,
    flags: &[Declared],
) -> Result<Vec<SecondName>, AllocError> {
    let mut all = Vec::new(alloc);
    for flag in flags {
        all.push(second_name(alloc, claimed, flag.name.as_slice())?)?;
    }
    Ok(all)
}

/// What is usual of objects of kinds, in the order of the sentences.
fn usuals_of(alloc: Global, claims: &[Claim]) -> Result<Vec<UsualTold>, AllocError> {
    let mut all = Vec::new(alloc);
    for claim in claims {
        if let Fact::Usually(usual) = &claim.fact {
            all.push(UsualTold {
                kind: Vec::from_slice(alloc, usual.kind.as_slice())?,
                property: Vec::from_slice(alloc, usual.property.as_slice())?,
                value: usual.value,
                line: claim.line,
            })?;
        }
    }
    Ok(all)
}

/// Words, parted by one blank.
pub fn joined(alloc: Global, words: &WordList) -> Result<Vec<u8>, AllocError> {
    let mut all = Vec::new(alloc);
    for word in words.as_slice() {
        if !all.is_empty() {
            all.push(b' ')?;
        }
        all.extend_from_slice(word.as_slice())?;
    }
    Ok(all)
}

/// The name of a standard action.
fn standard_name(alloc: Global, words: &[&[u8]]) -> Result<Vec<u8>, AllocError> {
    let mut all = Vec::new(alloc);
    for word in words {
        if !all.is_empty() {
            all.push(b' ')?;
        }
        all.extend_from_slice(word)?;
    }
    Ok(all)
}

/// Adds the action that a sentence declares, if it does.
fn add_action(
    alloc: Global,
    actions: &mut Vec<Declared>,
    sentence: &Sentence,
) -> Result<(), AllocError> {
    if let Assertion::Action(declared) = &sentence.said {
        actions.push(Declared {
            name: joined(alloc, &declared.name)?,
            line: Some(sentence.line),
        })?;
    }
    Ok(())
}

/// The actions by number, those that every story has first.
fn actions_of(alloc: Global, sentences: &[Sentence]) -> Result<Vec<Declared>, AllocError> {
    let mut actions = Vec::new(alloc);
    for row in STANDARD_ACTIONS.as_slice() {
        actions.push(Declared {
            name: standard_name(alloc, row.0)?,
            line: None,
        })?;
    }
    for sentence in sentences {
        add_action(alloc, &mut actions, sentence)?;
    }
    Ok(actions)
}

/// Of each object, by number, the line that names it first; the player and the directions stand in front, and no line need name them.
fn object_lines(alloc: Global, claimed: &Claimed<'_>) -> Result<Vec<Option<u32>>, AllocError> {
    let mut lines = Vec::new(alloc);
    for _ in 0..FIRST_OF_AUTHOR {
        lines.push(None)?;
    }
    for mention in claimed.names().mentions() {
        lines.push(Some(mention.line))?;
    }
    Ok(lines)
}

/// The names of scenes as their sentences write them, with their lines.
fn scenes_of(alloc: Global, sentences: &[Sentence]) -> Result<Vec<Declared>, AllocError> {
    let mut scenes = Vec::new(alloc);
    for sentence in sentences {
        if let Assertion::Scene { name, .. } = &sentence.said {
            scenes.push(Declared {
                name: Vec::from_slice(alloc, name.text.as_slice())?,
                line: Some(sentence.line),
            })?;
        }
    }
    Ok(scenes)
}

/// The names of the source with these sentences.
pub fn naming_of(alloc: Global, sentences: &[Sentence]) -> Result<Naming, AllocError> {
    let claimed = Claimed::new(alloc, sentences)?;
    let claims = claimed.claims();
    let flags = sort_of(alloc, claims, Sort::EitherOr)?;
    Ok(Naming {
        kinds: kinds_of(alloc, claims)?,
        second_names: second_names(alloc, &claimed, flags.as_slice())?,
        flags,
        numbers: sort_of(alloc, claims, Sort::Number)?,
        values: sort_of(alloc, claims, Sort::ValueKind)?,
        variables: sort_of(alloc, claims, Sort::Variable)?,
        scenes: scenes_of(alloc, sentences)?,
        rulebooks: sort_of(alloc, claims, Sort::Rulebook)?,
        actions: actions_of(alloc, sentences)?,
        usuals: usuals_of(alloc, claims)?,
        objects: object_lines(alloc, &claimed)?,
    })
}

/// The name that stands at a place.
pub fn name_at(names: &[Declared], place: usize) -> &[u8] {
    match names.get(place) {
        None => b"?",
        Some(declared) => declared.name.as_slice(),
    }
}

/// The line of the name at a place.
pub fn line_at(names: &[Declared], place: usize) -> Option<u32> {
    names.get(place)?.line
}
