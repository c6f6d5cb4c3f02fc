//! What the sentences of a source tell commands and words to mean, or the refusal that stands.
ghost use Rattle.std.specs.Prelude.{◌≡◌, ◌≤◌, length, IfOk};
ghost use Rattle.i7_grammar.specs.GrammarScans.{told_within};
ghost use Rattle.i7_grammar.specs.Grammars.{IsGrammarFound, grammar_by, grammar_meant, refused_or};
ghost use Rattle.i7_grammar.specs.Knowns.{known_by, known_of};
ghost use Rattle.i7_grammar.specs.Understood.{all_lent};

use crate::known::Known;
use crate::limits::{lowest_unknown, lowest_unsuited};
use crate::telling::{lines_in, lowest_over, synonyms_in};
use crate::understood::{Understood, understood_in};
use command_grammar::{GrammarLine, Synonym};
use i7_actions::Action;
use i7_conditions::Names;
use i7_sentences::Sentence;
use std::alloc::{AllocError, Global};
use world_meaning::{Fault, FaultCode, Object};

/// The lines and synonyms of an author's, each in the order of the source.
#[derive(Drop)]
pub struct Grammar {
    pub lines: Vec<GrammarLine>,
    pub synonyms: Vec<Synonym>,
}

/// What the sentences of a source tell.
#[derive(Drop)]
pub enum GrammarFound {
    Says(Grammar),
    /// The source is refused for what they tell.
    Refused(Fault),
}

/// Refused with the code at the line, if there is one, and else the next answer.
fn refused_or(code: FaultCode, line: Option<u32>, next: GrammarFound) -> GrammarFound
    ensures { grammar_meant result ≡ refused_or code line (grammar_meant next) }
{
    match line {
        None => next,
        Some(line) => GrammarFound::Refused(Fault { code, line }),
    }
}

/// What sentences tell whose words mean something, and whose texts suit that.
fn told_within(
    alloc: Global,
    objects: &[Object],
    all: &[Understood<'_>],
) -> Result<GrammarFound, AllocError>
    ensures { IfOk result (λ found. grammar_meant found ≡ told_within objects.now (all_lent all.now)) }
{
    let lines = lines_in(alloc, all)?;
    let synonyms = synonyms_in(alloc, all)?;
    let over = lowest_over(alloc, lines.len(), objects, all)?;
    let said = GrammarFound::Says(Grammar { lines, synonyms });
    Ok(refused_or(FaultCode::TooMany, over, said))
}

/// What sentences tell.
fn told_by(
    alloc: Global,
    known: &Known<'_>,
    all: &[Understood<'_>],
) -> Result<GrammarFound, AllocError>
    ensures { IfOk result (λ found. grammar_meant found ≡ grammar_by (known_of known.now) (all_lent all.now)) }
{
    let unknown = lowest_unknown(all);
    let unsuited = lowest_unsuited(alloc, all)?;
    let within = told_within(alloc, known.objects, all)?;
    let suited = refused_or(FaultCode::WrongKind, unsuited, within);
    Ok(refused_or(FaultCode::UnknownName, unknown, suited))
}

/// What the sentences of a source tell commands and words to mean, where these are the names, the actions and the objects, or what
/// refuses the source for that, at the lowest line of a sentence whose words mean neither an action nor an object (C7), else of one of
/// which a text has more or fewer slots than its action has nouns, or a slot where words are an object's (C8), and else of one of which
/// a text has more than 65,535 bytes or a line more than 32 tokens, or with which its object has more than 32 words, or the source
/// more than 65,502 lines (C12).
pub fn grammar_of(
    alloc: Global,
    names: &Names,
    actions: &[Action],
    objects: &[Object],
    sentences: &[Sentence],
) -> Result<GrammarFound, AllocError>
    requires few { length actions.now ≤ 255 }
    ensures { IfOk result (λ found. IsGrammarFound (known_by names.now actions.now objects.now) sentences.now found) }
{
    let known = Known {
        names,
        actions,
        objects,
    };
    let all = understood_in(alloc, &known, sentences)?;
    Ok(told_by(alloc, &known, all.as_slice())?)
}
