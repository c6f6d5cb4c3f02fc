//! What is resolved of a source, or the refusal that stands.
ghost use Rattle.std.specs.Prelude.{◌≡◌, ◌+◌, ◌*◌, ◌≤◌, length, map, IfOk};
ghost use Rattle.i7_conditions.specs.Readings.{IsFoundAs};
ghost use Rattle.i7_phrases.specs.Texts.{found_text, text_is_over};
ghost use Rattle.i7_rules.specs.Knowns.{known_of};
ghost use Rattle.i7_sentences.specs.ActionDeclarations.{actions_declared};
ghost use Rattle.i7_resolution.specs.SourceTexts.{SaysIn};
ghost use Rattle.i7_resolution.specs.Resolutions.{IsJoined, IsResolution, both, first_of, goes_before, grammar_told, joined, known_in, listings_told, refused_before, resolution_by, rules_told, scenes_told, scope_in, texts_told, turn_of, with_actions, with_fault};
ghost use Rattle.i7_resolution.specs.SourceActions.{actions_in, actions_lent};

use crate::action_list::{ActionAt, actions_declared};
use crate::book_name::book_twice;
use crate::source_actions::{action_over, action_twice, actions_of, known_actions};
use crate::source_listings::{ListingsFound, listings_of};
use crate::source_scenes::{ScenesFound, scenes_of};
use crate::source_texts::{SourceText, TextsFound, found_in, texts_of};
use i7_actions::Action;
use i7_conditions::{Found, Scope};
use i7_grammar::{Grammar, GrammarFound, grammar_of};
use i7_names::SourceNames;
use i7_rules::{Known, RulesFound, SourceRule, rules_of};
use i7_sentences::Sentence;
use play_meaning::tree::{MeantScene, Text};
use rule_order::ListingSentence;
use std::alloc::{AllocError, Global};
use world_meaning::{Fault, FaultCode, Tale, TextBytes};

/// The rules of a source, the texts that describe, and where sentences list rules, each in the order of their sentences, its scenes, by
/// number, and the lines and synonyms of its commands.
#[derive(Drop)]
pub struct Resolved {
    pub rules: Vec<SourceRule>,
    pub texts: Vec<SourceText>,
    pub listings: Vec<ListingSentence>,
    pub scenes: Vec<MeantScene>,
    pub grammar: Grammar,
}

/// The same, one behind the other.
type Lists = (
    (
        ((Vec<SourceRule>, Vec<SourceText>), Vec<ListingSentence>),
        Vec<MeantScene>,
    ),
    Grammar,
);

/// What is resolved of a source.
#[derive(Drop)]
pub enum Resolution {
    Says(Resolved),
    Refused(Fault),
}

/// Where a code comes among those that refuse a source for its rules, texts, listings, scenes and commands, and for its actions and
/// rulebooks' names.
fn turn_of(code: FaultCode) -> u8
    ensures { result ≡ turn_of code }
{
    match code {
        FaultCode::Twice => 0,
        FaultCode::UnknownName => 1,
        FaultCode::WrongKind => 2,
        FaultCode::TooMany => 3,
        _ => 4,
    }
}

/// Whether a refusal is told before another: its code is looked for before the other's, or it is the same one on a lower line.
fn goes_before(one: &Fault, other: &Fault) -> bool
    ensures { result ≡ goes_before one.now other.now }
{
    let (turn, others) = (turn_of(one.code), turn_of(other.code));
    turn < others || (turn == others && one.line < other.line)
}

/// The first of two refusals.
fn first_of(one: Fault, other: Fault) -> Fault
    ensures { result ≡ first_of one other }
{
    if goes_before(&other, &one) {
        other
    } else {
        one
    }
}

/// Both, or the first refusal.
fn both<A: Drop, B: Drop>(one: Result<A, Fault>, other: Result<B, Fault>) -> Result<(A, B), Fault>
    ensures { result ≡ both one other }
{
    match one {
        Ok(one) => match other {
            Ok(other) => Ok((one, other)),
            Err(fault) => Err(fault),
        },
        Err(fault) => match other {
            Ok(_) => Err(fault),
            Err(other) => Err(first_of(fault, other)),
        },
    }
}

/// The rules, or the refusal for them.
fn rules_told(rules: RulesFound) -> Result<Vec<SourceRule>, Fault>
    ensures { result ≡ rules_told rules }
{
    match rules {
        RulesFound::Says(rules) => Ok(rules),
        RulesFound::Refused(fault) => Err(fault),
    }
}

/// The texts, or the refusal for them.
fn texts_told(texts: TextsFound) -> Result<Vec<SourceText>, Fault>
    ensures { result ≡ texts_told texts }
{
    match texts {
        TextsFound::Says(texts) => Ok(texts),
        TextsFound::Refused(fault) => Err(fault),
    }
}

/// Where rules are listed, or the refusal for that.
fn listings_told(listings: ListingsFound) -> Result<Vec<ListingSentence>, Fault>
    ensures { result ≡ listings_told listings }
{
    match listings {
        ListingsFound::Says(listings) => Ok(listings),
        ListingsFound::Refused(fault) => Err(fault),
    }
}

/// The scenes, or the refusal for them.
fn scenes_told(scenes: ScenesFound) -> Result<Vec<MeantScene>, Fault>
    ensures { result ≡ scenes_told scenes }
{
    match scenes {
        ScenesFound::Says(scenes) => Ok(scenes),
        ScenesFound::Refused(fault) => Err(fault),
    }
}

/// What commands and words mean, or the refusal for that.
fn grammar_told(grammar: GrammarFound) -> Result<Grammar, Fault>
    ensures { result ≡ grammar_told grammar }
{
    match grammar {
        GrammarFound::Says(grammar) => Ok(grammar),
        GrammarFound::Refused(fault) => Err(fault),
    }
}

/// All that is told, or the refusal.
fn resolution_by(told: Result<Lists, Fault>) -> Resolution
    ensures { result ≡ resolution_by told }
{
    match told {
        Ok(((((rules, texts), listings), scenes), grammar)) => Resolution::Says(Resolved {
            rules,
            texts,
            listings,
            scenes,
            grammar,
        }),
        Err(fault) => Resolution::Refused(fault),
    }
}

/// All of them, or the first refusal.
fn joined(
    rules: RulesFound,
    texts: TextsFound,
    listings: ListingsFound,
    scenes: ScenesFound,
    grammar: GrammarFound,
) -> Resolution
    ensures { result ≡ joined rules texts listings scenes grammar }
{
    let told = both(rules_told(rules), texts_told(texts));
    let told = both(told, listings_told(listings));
    let told = both(told, scenes_told(scenes));
    let told = both(told, grammar_told(grammar));
    resolution_by(told)
}

/// Refused so, or before that for what is told already.
fn refused_before(fault: Fault, told: Resolution) -> Resolution
    ensures { result ≡ refused_before fault told }
{
    match told {
        Resolution::Says(_) => Resolution::Refused(fault),
        Resolution::Refused(other) => Resolution::Refused(first_of(fault, other)),
    }
}

/// Refused with this code where it stands at a line.
fn with_fault(code: FaultCode, line: Option<u32>, told: Resolution) -> Resolution
    ensures { result ≡ with_fault code line told }
{
    match line {
        None => told,
        Some(line) => refused_before(Fault { code, line }, told),
    }
}

/// What is told, unless a name is given twice, an action's or a rulebook's, or an action is one too many.
fn with_actions(
    alloc: Global,
    declared: &[ActionAt<'_>],
    actions: &[Action],
    sentences: &[Sentence],
    told: Resolution,
) -> Result<Resolution, AllocError>
    requires declared { actions_lent declared.now ≡ actions_declared sentences.now }
    requires actions { actions.now ≡ actions_in sentences.now }
    ensures { IfOk result (λ found. found ≡ with_actions sentences.now told) }
{
    let book = book_twice(alloc, actions, sentences)?;
    let action = action_twice(alloc, declared)?;
    let few = with_fault(FaultCode::TooMany, action_over(declared), told);
    let apart = with_fault(FaultCode::Twice, action, few);
    Ok(with_fault(FaultCode::Twice, book, apart))
}

/// What is told of rules, texts, listings, scenes and commands where so much is known.
fn joined_of(
    alloc: Global,
    known: &Known<'_>,
    recurring: &[bool],
    sentences: &[Sentence],
) -> Result<Resolution, AllocError>
    ensures { IfOk result (λ told. IsJoined (known_of known.now) recurring.now sentences.now told) }
{
    let rules = rules_of(alloc, known, sentences)?;
    let texts = texts_of(alloc, known, sentences)?;
    let listings = listings_of(alloc, known, sentences)?;
    let scenes = scenes_of(alloc, known, recurring, sentences)?;
    let grammar = grammar_of(alloc, known.names, known.actions, known.objects, sentences)?;
    Ok(joined(rules, texts, listings, scenes, grammar))
}

/// The names of rulebooks, as they are known.
fn rulebooks_of(alloc: Global, names: &[Vec<u8>]) -> Result<Vec<TextBytes>, AllocError>
    ensures { IfOk result (λ rulebooks. rulebooks.items ≡ map (λ name. name.items) names.now) }
{
    let mut rulebooks = Vec::new(alloc);
    let mut rest = names;
    while let [name, behind @ ..] = rest {
        rulebooks.push(TextBytes::copied(alloc, name.as_slice())?)?;
        rest = behind;
    }
    Ok(rulebooks)
}

/// What a text says that describes, where the names of a source stand for this.
pub fn text_said(alloc: Global, names: &SourceNames, text: &[u8]) -> Result<Found<Text>, AllocError>
    ensures { IfOk result (λ found. IsFoundAs (SaysIn (scope_in names.now) text.now) text_is_over (found_text found)) }
{
    let scope = Scope {
        names: &names.names,
        repeats: &[],
    };
    let found = found_in(alloc, &scope, text)?;
    Ok(found)
}

/// The rules of a source, the texts that describe, where sentences list rules, when its scenes begin and end, and what commands and
/// words mean, where its names stand for this and its sentences mean this tale, or the refusal that stands: each code is looked for
/// in all rules, texts, listings, scenes and commands before the next, and told at its lowest line. These are C9, C7, C8, C12 and
/// C5, as `rules_of`, `texts_of`, `listings_of`, `scenes_of` and `grammar_of` have them, C9 of an action whose name another has and
/// of a rulebook that is named as rules of an action are, and C12 of an action that is one too many.
#[tactic(auto, unfolding(crate::specs::SourceActions::actions_in))]
pub fn resolution_of(
    alloc: Global,
    names: &SourceNames,
    tale: &Tale,
    sentences: &[Sentence],
) -> Result<Resolution, AllocError>
    requires countable { 8 + 2 * names.now.scenes + length names.now.rulebooks ≤ 65535 }
    ensures { IfOk result (λ told. IsResolution (known_in names.now tale.now sentences.now) tale.now.declared.scenes sentences.now told) }
{
    let declared = actions_declared(alloc, sentences)?;
    let actions = actions_of(alloc, declared.as_slice())?;
    let actions = actions.as_slice();
    let rulebooks = rulebooks_of(alloc, names.rulebooks.as_slice())?;
    let known = Known {
        names: &names.names,
        actions: known_actions(actions),
        rulebooks: rulebooks.as_slice(),
        scenes: names.scenes as u16,
        parents: tale.declared.kinds.as_slice(),
        objects: tale.objects.as_slice(),
    };
    let recurring = tale.declared.scenes.as_slice();
    let told = joined_of(alloc, &known, recurring, sentences)?;
    Ok(with_actions(alloc, declared.as_slice(), actions, sentences, told)?)
}
