//! Reading a source: cut it into sentences, understand each, test the names.
ghost use Rattle.std.specs.Prelude.{◌≡◌, ◌≢◌, Some, Ok, Err, Result, IfErr, IfOk, MatchOption, MatchResult};
ghost use Rattle.std.specs.List.{filter_map};
ghost use Rattle.world_meaning.specs.Faults.{out_of_memory};
ghost use Rattle.i7_sentences.specs.Assertions.{assertion_of};
ghost use Rattle.i7_sentences.specs.Cuts.{parts_of};
ghost use Rattle.i7_sentences.specs.KindsOfValue.{kinds_of_value};
ghost use Rattle.i7_sentences.specs.Lowest.{lowest};
ghost use Rattle.i7_sentences.specs.Pieces.{piece_of, pieces_of};
ghost use Rattle.i7_sentences.specs.HeardForms.{named_heard, plain_heard, plain_found};
ghost use Rattle.i7_sentences.specs.Read.{IsHeardAs, IsHeardOr, heard_in, read_of, reserved_in, sentence_in, unread_in};
ghost use Rattle.i7_sentences.specs.Reserved.{has_reserved_among};
ghost use Rattle.i7_sentences.specs.Sources.{HasSentences, IsRefused};
ghost use Rattle.i7_sentences.specs.Stretches.{bad_literal_of};
ghost use Rattle.i7_sentences.specs.Understood.{is_shaped, passed_on, understood_by};
ghost use Rattle.i7_sentences.specs.ValueFits.{read_later};
ghost use Rattle.i7_sentences.specs.declared.heard.Heard.TheVariants.{Unread};
ghost use Rattle.i7_sentences.specs.Found.{found_in};

use crate::assertion::assertion_of;
use crate::body::line_in;
use crate::column_stack::ColumnStack;
use crate::cut::parts_of;
use crate::heard::{Heard, HeardPart};
use crate::kinds_of_value::kinds_of_value;
use crate::low::lower_of;
use crate::reading::Reading;
use crate::reserved::has_reserved_among;
use crate::rule_form::is_rule_form;
use crate::rule_reader::rule_part;
use crate::stretch::bad_literal_in;
use crate::tagged::{Tagged, with_tags};
use crate::value_reading::{later_reading, reading_with};
use crate::{Assertion, Form, Part, PartKind, Sentence, WordList};
use i7_lexer::{Lexed, PackedToken};
use std::alloc::{AllocError, Global};
use world_meaning::{Fault, FaultCode};

/// What a source's parts say, and where they are refused.
#[derive(Drop)]
struct HeardParts {
    sentences: Vec<Sentence>,
    /// The lowest line of a literal out of range.
    bad_literal: Option<u32>,
    /// The lowest line of what isn't understood.
    unread: Option<u32>,
    /// The lowest line of a reserved word in a name.
    reserved: Option<u32>,
}

/// Memory was refused.
fn memory(_: AllocError) -> Fault
    ensures { result ≡ out_of_memory }
{
    Fault::OUT_OF_MEMORY
}

/// What a sentence says, in which a name holds a reserved word or doesn't.
fn named_heard(line: u32, is_reserved: bool, said: Assertion) -> Heard
    ensures { result ≡ named_heard line is_reserved said }
{
    if is_reserved {
        drop(said);
        Heard::Reserved(line)
    } else {
        Heard::Says(said)
    }
}

/// What a sentence at this line says by its reading, which is no rule's.
fn plain_heard(
    alloc: Global,
    kinds: &[WordList],
    line: u32,
    reading: &Reading<'_, '_>,
) -> Result<Heard, AllocError>
    ensures { IfOk result (λ heard. heard ≡ plain_found line kinds.now (found_in reading.now).variant (found_in reading.now).letters) }
{
    let letters = reading.letters.as_slice();
    match assertion_of(alloc, kinds, reading.form, letters)? {
        None => Ok(Heard::Unread(line)),
        Some(said) => Ok(named_heard(line, has_reserved_among(reading.pieces, letters), said)),
    }
}

/// What a sentence says by this reading.
#[tactic(auto, unfolding(crate::specs::Read::IsHeardAs), using(crate::proofs::Lowest::lower_steps))]
fn part_by(
    alloc: Global,
    kinds: &[WordList],
    tokens: &[PackedToken],
    words: &[Tagged<'_>],
    reading: &Reading<'_, '_>,
) -> Result<HeardPart, AllocError>
    requires { words.now ≡ tokens.now }
    ensures { IfOk result (λ part. IsHeardAs kinds.now tokens.now (Some (found_in reading.now)) part) }
{
    if is_rule_form(reading.form) {
        return Ok(rule_part(alloc, tokens, words)?);
    }
    let line = line_in(tokens);
    Ok(HeardPart {
        heard: plain_heard(alloc, kinds, line, reading)?,
        bad_literal: bad_literal_in(line, tokens),
    })
}

/// What a sentence says by a later form, or that it isn't understood at this line.
#[tactic(auto, unfolding(crate::specs::Read::IsHeardOr))]
fn later_part(
    alloc: Global,
    kinds: &[WordList],
    tokens: &[PackedToken],
    words: &[Tagged<'_>],
    line: u32,
    bad_literal: Option<u32>,
    columns: &mut ColumnStack,
) -> Result<HeardPart, AllocError>
    requires { words.now ≡ tokens.now }
    ensures { IfOk result (λ part. IsHeardOr kinds.now tokens.now (read_later kinds.now tokens.now) (record { heard = Unread line; bad_literal = bad_literal }) part) }
{
    match later_reading(alloc, kinds, words, columns)? {
        None => Ok(HeardPart {
            heard: Heard::Unread(line),
            bad_literal,
        }),
        Some(later) => Ok(part_by(alloc, kinds, tokens, words, &later)?),
    }
}

/// Whether the letters of a form have a shape that no class tells: those of rules, and of what a scene begins or ends on.
fn is_shaped(form: Form) -> bool
    ensures { result ≡ is_shaped form }
{
    match form {
        Form::SceneBegins | Form::SceneEnds => true,
        _ => is_rule_form(form),
    }
}

/// What a sentence says that this form reads, or else a later form, if it has the words of this form and not its shape.
#[tactic(auto, using(crate::proofs::Understood::passing))]
fn understood_part(
    alloc: Global,
    kinds: &[WordList],
    tokens: &[PackedToken],
    words: &[Tagged<'_>],
    reading: &Reading<'_, '_>,
    columns: &mut ColumnStack,
) -> Result<HeardPart, AllocError>
    requires { words.now ≡ tokens.now }
    ensures { IfOk result (λ part. IsHeardAs kinds.now tokens.now (passed_on kinds.now tokens.now (found_in reading.now)) part) }
{
    let HeardPart { heard, bad_literal } = part_by(alloc, kinds, tokens, words, reading)?;
    match heard {
        Heard::Says(said) => Ok(HeardPart {
            heard: Heard::Says(said),
            bad_literal,
        }),
        Heard::Reserved(line) => Ok(HeardPart {
            heard: Heard::Reserved(line),
            bad_literal,
        }),
        Heard::Unread(line) => {
            if !is_shaped(reading.form) {
                return Ok(HeardPart {
                    heard: Heard::Unread(line),
                    bad_literal,
                });
            }
            Ok(later_part(alloc, kinds, tokens, words, line, bad_literal, columns)?)
        }
    }
}

/// What a sentence says, where these kinds of value are declared.
#[tactic(auto, unfolding(crate::specs::Understood::understood_by), using(crate::proofs::Understood::unheard))]
fn sentence_part(
    alloc: Global,
    kinds: &[WordList],
    tokens: &[PackedToken],
    columns: &mut ColumnStack,
) -> Result<HeardPart, AllocError>
    ensures { IfOk result (λ part. IsHeardAs kinds.now tokens.now (understood_by kinds.now tokens.now) part) }
{
    let line = line_in(tokens);
    let words = with_tags(alloc, tokens)?;
    match reading_with(alloc, kinds, words.as_slice(), columns)? {
        None => Ok(HeardPart {
            heard: Heard::Unread(line),
            bad_literal: bad_literal_in(line, tokens),
        }),
        Some(reading) => understood_part(alloc, kinds, tokens, words.as_slice(), &reading, columns),
    }
}

/// What a part says.
#[tactic(auto, unfolding(crate::specs::Read::IsHeardAs, crate::specs::Read::heard_in, crate::specs::Stretches::bad_literal_of))]
fn heard_part(
    alloc: Global,
    kinds: &[WordList],
    part: &Part<'_>,
    columns: &mut ColumnStack,
) -> Result<HeardPart, AllocError>
    ensures heard { IfOk result (λ found. found.heard ≡ heard_in kinds.now (piece_of part.now)) }
    ensures literals { IfOk result (λ found. found.bad_literal ≡ bad_literal_of kinds.now (piece_of part.now)) }
{
    match part.kind {
        PartKind::Title | PartKind::Heading => Ok(HeardPart {
            heard: Heard::Says(Assertion::Aside),
            bad_literal: None,
        }),
        PartKind::Sentence => Ok(sentence_part(alloc, kinds, part.tokens, columns)?),
    }
}

/// What all parts say.
#[tactic(auto, using(crate::proofs::Lowest::lower_steps))]
fn heard_parts(
    alloc: Global,
    kinds: &[WordList],
    parts: &[Part<'_>],
    columns: &mut ColumnStack,
) -> Result<HeardParts, AllocError>
    ensures said { IfOk result (λ heard. heard.sentences.items ≡ filter_map (sentence_in kinds.now) (pieces_of parts.now)) }
    ensures literals { IfOk result (λ heard. heard.bad_literal ≡ lowest (bad_literal_of kinds.now) (pieces_of parts.now)) }
    ensures unread { IfOk result (λ heard. heard.unread ≡ lowest (unread_in kinds.now) (pieces_of parts.now)) }
    ensures reserved { IfOk result (λ heard. heard.reserved ≡ lowest (reserved_in kinds.now) (pieces_of parts.now)) }
{
    let mut sentences = Vec::new(alloc);
    let mut bad_literal = None;
    let mut unread = None;
    let mut reserved = None;
    let mut rest = parts;
    while let [part, after @ ..] = rest {
        let found = heard_part(alloc, kinds, part, columns)?;
        bad_literal = lower_of(bad_literal, found.bad_literal);
        match found.heard {
            Heard::Unread(line) => unread = lower_of(unread, Some(line)),
            Heard::Reserved(line) => reserved = lower_of(reserved, Some(line)),
            Heard::Says(said) => sentences.push(Sentence {
                said,
                line: line_in(part.tokens),
            })?,
        }
        rest = after;
    }
    Ok(HeardParts {
        sentences,
        bad_literal,
        unread,
        reserved,
    })
}

/// What all parts say, where the kinds of value are declared that they declare.
fn heard_source(alloc: Global, parts: &[Part<'_>]) -> Result<HeardParts, AllocError>
    ensures said { IfOk result (λ heard. heard.sentences.items ≡ filter_map (sentence_in (kinds_of_value (pieces_of parts.now))) (pieces_of parts.now)) }
    ensures literals { IfOk result (λ heard. heard.bad_literal ≡ lowest (bad_literal_of (kinds_of_value (pieces_of parts.now))) (pieces_of parts.now)) }
    ensures unread { IfOk result (λ heard. heard.unread ≡ lowest (unread_in (kinds_of_value (pieces_of parts.now))) (pieces_of parts.now)) }
    ensures reserved { IfOk result (λ heard. heard.reserved ≡ lowest (reserved_in (kinds_of_value (pieces_of parts.now))) (pieces_of parts.now)) }
{
    let mut columns = ColumnStack::new(alloc);
    let kinds = kinds_of_value(alloc, parts, &mut columns)?;
    Ok(heard_parts(alloc, kinds.as_slice(), parts, &mut columns)?)
}

/// Refuses at the line, if there is one.
fn refuse(code: FaultCode, line: Option<u32>) -> Result<(), Fault>
    ensures { MatchOption line (result ≡ Ok tt) (λ line. result ≡ Err (record { code = code; line = line })) }
{
    match line {
        Some(line) => Err(Fault { code, line }),
        None => Ok(()),
    }
}

/// What the tokens say, from the first to the last: each refusal is looked for in all parts before the
/// next.
fn read_through(alloc: Global, lexed: &Lexed) -> Result<Vec<Sentence>, Fault>
    ensures read { IfOk result (λ sentences. read_of lexed.now ≡ Ok sentences.items) }
    ensures refused { IfErr result (λ fault. fault.code ≢ FaultCode.Memory → read_of lexed.now ≡ Err fault) }
    ensures memory { IfErr result (λ fault. fault.code ≡ FaultCode.Memory → fault.line ≡ 1) }
{
    let parts = match parts_of(alloc, lexed.tokens()) {
        Ok(parts) => parts,
        Err(refused) => return Err(memory(refused)),
    };
    let heard = match heard_source(alloc, parts.as_slice()) {
        Ok(heard) => heard,
        Err(refused) => return Err(memory(refused)),
    };
    refuse(FaultCode::NumberOutOfRange, heard.bad_literal)?;
    refuse(FaultCode::NotUnderstood, heard.unread)?;
    refuse(FaultCode::ReservedWord, heard.reserved)?;
    Ok(heard.sentences)
}

/// The sentences that the tokens spell, or the refusal that stands: a literal out of range (C15),
/// a sentence that isn't understood (C5), a reserved word in a name (C6); each is looked for in the
/// whole source before the next, and the lowest line is given, within a rule's body that of the phrase.
/// Memory, C14, is at line 1.
pub fn read(alloc: Global, lexed: &Lexed) -> Result<Vec<Sentence>, Fault>
    ensures { MatchResult result (λ sentences. HasSentences lexed.now sentences.items) (IsRefused lexed.now) }
{
    read_through(alloc, lexed)
}
