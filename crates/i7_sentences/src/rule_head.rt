//! What the head of a rule says.
ghost use Rattle.std.specs.Prelude.{◌≡◌, ◌≤◌, length, map, option_map, IfOk};
ghost use Rattle.std.specs.List.{position_or_len};
ghost use Rattle.i7_sentences.specs.Classes.{is_body_mark};
ghost use Rattle.i7_sentences.specs.Found.{found_in};
ghost use Rattle.i7_sentences.specs.RuleHeads.{behind_if, body_tokens, book_of, has_own_name, has_parts, has_scene, has_shape, has_subject, head_as, head_found, head_in, head_of, head_tokens, if_understood, is_one_phrase, is_there, is_understood, letter_if, name_if};

use crate::class::is_body_mark;
use crate::column_stack::ColumnStack;
use crate::condition::is_condition;
use crate::head_words::{condition_of, scene_of, subject_of};
use crate::reading::Reading;
use crate::reserved::has_reserved_among;
use crate::rule_form::{HeadBook, HeadForm, HeadParts, is_head_form, rule_reading};
use crate::tagged::Tagged;
use crate::word_list::{named_in, words_in};
use crate::{Keyword, RuleBook, RuleSubject, WordList};
use i7_lexer::PackedToken;
use std::alloc::{AllocError, Global};

/// What a head says.
#[derive(Drop)]
pub struct Head {
    pub book: RuleBook,
    pub subject: RuleSubject,
    /// The words of the scene.
    pub scene: Option<WordList>,
    pub condition: Option<WordList>,
    pub name: Option<WordList>,
    /// Whether the name of a scene that begins or ends holds a reserved word.
    pub has_reserved_name: bool,
    /// Whether its mark is a comma, behind which one phrase stands with what belongs to it.
    pub takes_one: bool,
}

/// Whether a letter names the scene or the author's book.
fn has_own_name(book: HeadBook) -> bool
    ensures { result ≡ has_own_name book }
{
    match book {
        HeadBook::SceneBegins | HeadBook::SceneEnds | HeadBook::Own => true,
        _ => false,
    }
}

/// Whether a letter tells what stands behind the words of the book.
fn has_parts(parts: HeadParts) -> bool
    ensures { result ≡ has_parts parts }
{
    match parts {
        HeadParts::Nothing => false,
        _ => true,
    }
}

/// The first letter, if it is there.
fn letter_if<'a, 'b>(has: bool, letters: &[&'a [Tagged<'b>]]) -> &'a [Tagged<'b>]
    ensures { result.now ≡ letter_if has (map (λ letter. letter.now) letters.now) }
{
    if !has {
        return &[];
    }
    match letters {
        [] => &[],
        [letter, ..] => letter,
    }
}

/// The letters behind it.
fn behind_if<'c, 'a, 'b>(has: bool, letters: &'c [&'a [Tagged<'b>]]) -> &'c [&'a [Tagged<'b>]]
    ensures { map (λ letter. letter.now) result.now ≡ behind_if has (map (λ letter. letter.now) letters.now) }
{
    if !has {
        return letters;
    }
    match letters {
        [] => letters,
        [_, behind @ ..] => behind,
    }
}

/// The book that a head names.
fn book_of(alloc: Global, book: HeadBook, letter: &[Tagged<'_>]) -> Result<RuleBook, AllocError>
    ensures { IfOk result (λ named. named ≡ book_of book letter.now) }
{
    match book {
        HeadBook::Before => Ok(RuleBook::Before),
        HeadBook::Instead => Ok(RuleBook::Instead),
        HeadBook::Check => Ok(RuleBook::Check),
        HeadBook::CarryOut => Ok(RuleBook::CarryOut),
        HeadBook::After => Ok(RuleBook::After),
        HeadBook::Report => Ok(RuleBook::Report),
        HeadBook::EveryTurn => Ok(RuleBook::EveryTurn),
        HeadBook::PlayBegins => Ok(RuleBook::PlayBegins),
        HeadBook::SceneBegins => Ok(RuleBook::SceneBegins(words_in(alloc, letter)?)),
        HeadBook::SceneEnds => Ok(RuleBook::SceneEnds(words_in(alloc, letter)?)),
        HeadBook::Own => Ok(RuleBook::Own(named_in(alloc, letter)?)),
    }
}

/// The rule's name, if it has one.
fn name_if(
    alloc: Global,
    is_named: bool,
    letter: &[Tagged<'_>],
) -> Result<Option<WordList>, AllocError>
    ensures { IfOk result (λ name. name ≡ name_if is_named letter.now) }
{
    if is_named {
        Ok(Some(words_in(alloc, letter)?))
    } else {
        Ok(None)
    }
}

/// Whether the last letter begins with a comma.
fn is_one_phrase(letter: &[Tagged<'_>]) -> bool
    ensures { result ≡ is_one_phrase letter.now }
{
    match letter {
        [] => false,
        [mark, ..] => mark.is_sign(Keyword::Comma),
    }
}

/// What a head of this form says with these letters.
fn head_of(
    alloc: Global,
    head: HeadForm,
    is_reserved: bool,
    letters: &[&[Tagged<'_>]],
) -> Result<Head, AllocError>
    ensures { IfOk result (λ said. said ≡ head_of head is_reserved (map (λ letter. letter.now) letters.now)) }
{
    let has_own = has_own_name(head.book);
    let behind_own = behind_if(has_own, letters);
    let has_told = has_parts(head.parts);
    let behind_told = behind_if(has_told, behind_own);
    let told = letter_if(has_told, behind_own);
    let body = letter_if(true, behind_if(head.is_named, behind_told));
    Ok(Head {
        book: book_of(alloc, head.book, letter_if(has_own, letters))?,
        subject: subject_of(alloc, head.parts, told)?,
        scene: scene_of(alloc, head.parts, told)?,
        condition: condition_of(alloc, head.parts, told)?,
        name: name_if(alloc, head.is_named, letter_if(head.is_named, behind_told))?,
        has_reserved_name: is_reserved,
        takes_one: is_one_phrase(body),
    })
}

/// Whether there are words.
fn is_there(words: &WordList) -> bool
    ensures { result ≡ is_there words.now }
{
    match words.as_slice() {
        [] => false,
        _ => true,
    }
}

/// Whether the pattern or the place, if there is one, has words.
fn has_subject(subject: &RuleSubject) -> bool
    ensures { result ≡ has_subject subject.now }
{
    match subject {
        RuleSubject::Anything => true,
        RuleSubject::Pattern(words) => is_there(words),
        RuleSubject::Place(words) => is_there(words),
    }
}

/// Whether the scene, if there is one, has words.
fn has_scene(scene: &Option<WordList>) -> bool
    ensures { result ≡ has_scene scene.now }
{
    match scene {
        None => true,
        Some(words) => is_there(words),
    }
}

/// Whether a condition, if there is one, has a condition's shape.
fn has_shape(condition: &Option<WordList>) -> bool
    ensures { result ≡ has_shape condition.now }
{
    match condition {
        None => true,
        Some(condition) => is_condition(condition.as_slice()),
    }
}

/// Whether words stand wherever some are wanted, and a condition has a condition's shape.
fn is_understood(head: &Head) -> bool
    ensures { result ≡ is_understood head.now }
{
    has_subject(&head.subject) && has_scene(&head.scene) && has_shape(&head.condition)
}

/// The head, if it is understood.
fn if_understood(head: Head) -> Option<Head>
    ensures { result ≡ if_understood head }
{
    if is_understood(&head) {
        Some(head)
    } else {
        None
    }
}

/// What the letters say, if the form is one of a head.
fn head_as(
    alloc: Global,
    head: Option<HeadForm>,
    is_reserved: bool,
    letters: &[&[Tagged<'_>]],
) -> Result<Option<Head>, AllocError>
    ensures { IfOk result (λ said. said ≡ head_as head is_reserved (map (λ letter. letter.now) letters.now)) }
{
    match head {
        None => Ok(None),
        Some(head) => Ok(if_understood(head_of(alloc, head, is_reserved, letters)?)),
    }
}

/// What a reading says of a head.
fn head_found(alloc: Global, reading: Option<Reading<'_, '_>>) -> Result<Option<Head>, AllocError>
    ensures { IfOk result (λ said. said ≡ head_found (option_map found_in reading.entry)) }
{
    match reading {
        None => Ok(None),
        Some(found) => {
            let letters = found.letters.as_slice();
            let is_reserved = has_reserved_among(found.pieces, letters);
            Ok(head_as(alloc, is_head_form(found.form), is_reserved, letters)?)
        }
    }
}

/// What the head of a rule says; none where it isn't understood.
#[tactic(auto, unfolding(crate::specs::RuleHeads::head_in))]
pub fn head_in(alloc: Global, tokens: &[Tagged<'_>]) -> Result<Option<Head>, AllocError>
    ensures { IfOk result (λ head. head ≡ head_in tokens.now) }
{
    let mut columns = ColumnStack::new(alloc);
    let reading = rule_reading(alloc, tokens, &mut columns)?;
    Ok(head_found(alloc, reading)?)
}

/// How many tokens stand in front of the first mark that ends a head.
fn head_len(tokens: &[Tagged<'_>]) -> usize
    ensures place { result ≡ position_or_len is_body_mark tokens.now }
    ensures within { result ≤ length tokens.now }
{
    tokens
        .iter()
        .take_while(|token| !is_body_mark(token))
        .count()
}

/// The tokens of a rule: those in front of the mark that ends its head, and those of its body, which stand behind it.
pub fn parted_at_body<'a>(
    tokens: &'a [PackedToken],
    words: &[Tagged<'_>],
) -> (&'a [PackedToken], &'a [PackedToken])
    requires { words.now ≡ tokens.now }
    ensures front { result.0.now ≡ head_tokens tokens.now }
    ensures body { result.1.now ≡ body_tokens tokens.now }
{
    let (front, rest) = tokens.split_at(head_len(words));
    match rest {
        [] => (front, rest),
        [_, body @ ..] => (front, body),
    }
}
