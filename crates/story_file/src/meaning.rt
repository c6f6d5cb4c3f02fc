//! From sentences to the tale that they mean, and what they say of it.
ghost use Rattle.std.specs.Prelude.{◌≡◌, ◌⊎◌, Ok as Said, IfErr, IfOk, length};
ghost use Rattle.i7_kinds.specs.Tales.{long_said, tale_said};
ghost use Rattle.i7_resolution.specs.Resolutions.{IsResolution, known_in, scope_in};
ghost use Rattle.story_format.specs.Contents.{contents_meant};
ghost use Rattle.world_meaning.specs.Faults.{out_of_memory};
ghost use Rattle.story_file.specs.Lines.{scene_lines};
ghost use Rattle.story_file.specs.Meanings.{AreMeant, AreRefused, AreTexts, is_too_many, known_said, scope_said, with_long};
ghost use Rattle.story_file.specs.Rules.{lines_told, listings_told, rules_told, scenes_told, synonyms_told};
ghost use Rattle.story_file.specs.Texts.{AreReadable};

use crate::lines::scene_lines;
use crate::rules::rules_of;
use crate::texts::texts_of;
use i7_claims::Claimed;
use i7_conditions::Scope;
use i7_kinds::{TaleSaid, tale_of};
use i7_names::{SourceNames, names_in};
use i7_resolution::{Resolution, Resolved, resolution_of};
use i7_sentences::Sentence;
use std::alloc::{AllocError, Global};
use story_format::Contents;
use world_meaning::{Fault, FaultCode, Tale};

/// A tale and what is said of it, and of each scene the line of the first sentence that says on what it begins or ends.
#[derive(Drop)]
pub struct Meant {
    pub tale: Tale,
    pub contents: Contents,
    pub scene_lines: Vec<u32>,
}

/// The same without the tale.
#[derive(Drop)]
struct Kept {
    contents: Contents,
    scene_lines: Vec<u32>,
}

/// What the names of sentences stand for that mean this tale, and what is resolved of them.
fn resolution_said(
    alloc: Global,
    claimed: &Claimed<'_>,
    tale: &Tale,
) -> Result<(SourceNames, Resolution), AllocError>
    requires meant { tale_said claimed.now ≡ Said tale.now }
    ensures names { IfOk result (λ found. known_in found.0 tale.now claimed.now ≡ known_said claimed.now tale.now) }
    ensures told { IfOk result (λ found. IsResolution (known_said claimed.now tale.now) tale.now.declared.scenes claimed.now found.1) }
{
    let names = names_in(alloc, claimed)?;
    let told = resolution_of(alloc, &names, tale, claimed.sentences())?;
    Ok((names, told))
}

/// What is said of a tale that the sentences mean, where so much is resolved of them.
fn contents_of(
    alloc: Global,
    names: &SourceNames,
    tale: &Tale,
    resolved: Resolved,
) -> Result<Contents, AllocError>
    requires { AreReadable (scope_in names.now) tale.now.objects }
    ensures texts { IfOk result (λ said. AreTexts (scope_in names.now) tale.now.objects (contents_meant said).texts) }
    ensures rules { IfOk result (λ said. (contents_meant said).rules ≡ rules_told resolved) }
    ensures listings { IfOk result (λ said. (contents_meant said).listings ≡ listings_told resolved) }
    ensures scenes { IfOk result (λ said. (contents_meant said).scenes ≡ scenes_told resolved) }
    ensures commands { IfOk result (λ said. (contents_meant said).lines ≡ lines_told resolved) }
    ensures synonyms { IfOk result (λ said. (contents_meant said).synonyms ≡ synonyms_told resolved) }
{
    let texts = texts_of(alloc, names, tale.objects.as_slice())?;
    let rules = rules_of(alloc, resolved.rules)?;
    Ok(Contents {
        texts,
        rules,
        listings: resolved.listings,
        scenes: resolved.scenes,
        lines: resolved.grammar.lines,
        synonyms: resolved.grammar.synonyms,
    })
}

/// The lines of the scenes, where the names of sentences stand for this.
fn lines_of(
    alloc: Global,
    names: &SourceNames,
    tale: &Tale,
    sentences: &[Sentence],
) -> Result<Vec<u32>, AllocError>
    ensures { IfOk result (λ lines. lines.items ≡ scene_lines (scope_in names.now) sentences.now (length tale.now.declared.scenes)) }
{
    let scope = Scope {
        names: &names.names,
        repeats: &[],
    };
    scene_lines(
        alloc,
        &scope,
        sentences,
        tale.declared.scenes.as_slice().len(),
    )
}

/// What is kept beside a tale, where so much is resolved of the sentences that mean it.
fn kept_of(
    alloc: Global,
    names: &SourceNames,
    tale: &Tale,
    sentences: &[Sentence],
    resolved: Resolved,
) -> Result<Kept, AllocError>
    requires { AreReadable (scope_in names.now) tale.now.objects }
    ensures texts { IfOk result (λ kept. AreTexts (scope_in names.now) tale.now.objects (contents_meant kept.contents).texts) }
    ensures rules { IfOk result (λ kept. (contents_meant kept.contents).rules ≡ rules_told resolved) }
    ensures listings { IfOk result (λ kept. (contents_meant kept.contents).listings ≡ listings_told resolved) }
    ensures scenes { IfOk result (λ kept. (contents_meant kept.contents).scenes ≡ scenes_told resolved) }
    ensures commands { IfOk result (λ kept. (contents_meant kept.contents).lines ≡ lines_told resolved) }
    ensures synonyms { IfOk result (λ kept. (contents_meant kept.contents).synonyms ≡ synonyms_told resolved) }
    ensures lines { IfOk result (λ kept. kept.scene_lines.items ≡ scene_lines (scope_in names.now) sentences.now (length tale.now.declared.scenes)) }
{
    let contents = contents_of(alloc, names, tale, resolved)?;
    let scene_lines = lines_of(alloc, names, tale, sentences)?;
    Ok(Kept {
        contents,
        scene_lines,
    })
}

/// Whether a code is that of what is too many or too long.
fn is_too_many(code: FaultCode) -> bool
    ensures { result ≡ is_too_many code }
{
    match code {
        FaultCode::TooMany => true,
        _ => false,
    }
}

/// The refusal that stands where rules and commands are refused so, and a name or a description is too long at this line.
fn with_long(long_line: Option<u32>, fault: Fault) -> Fault
    ensures { result ≡ with_long long_line fault }
{
    match long_line {
        None => fault,
        Some(line) => {
            if is_too_many(fault.code) && line < fault.line {
                Fault {
                    code: FaultCode::TooMany,
                    line,
                }
            } else {
                fault
            }
        }
    }
}

/// What is kept beside a tale that the sentences mean, or why they are refused.
fn meant_of(alloc: Global, claimed: &Claimed<'_>, said: &TaleSaid) -> Result<Kept, Fault>
    requires tale { tale_said claimed.now ≡ Said said.now.tale }
    requires line { said.now.long_line ≡ long_said claimed.now }
    ensures meant { IfOk result (λ kept. AreMeant claimed.now said.now.tale (contents_meant kept.contents)) }
    ensures lines { IfOk result (λ kept. kept.scene_lines.items ≡ scene_lines (scope_said claimed.now) claimed.now (length said.now.tale.declared.scenes)) }
    ensures refused { IfErr result (λ fault. AreRefused claimed.now fault ⊎ (fault ≡ out_of_memory)) }
{
    let sentences = claimed.sentences();
    let Ok((names, told)) = resolution_said(alloc, claimed, &said.tale) else {
        return Err(Fault::OUT_OF_MEMORY);
    };
    match told {
        Resolution::Refused(fault) => Err(with_long(said.long_line, fault)),
        Resolution::Says(resolved) => {
            if let Some(line) = said.long_line {
                return Err(Fault {
                    code: FaultCode::TooMany,
                    line,
                });
            }
            match kept_of(alloc, &names, &said.tale, sentences, resolved) {
                Ok(kept) => Ok(kept),
                Err(_) => Err(Fault::OUT_OF_MEMORY),
            }
        }
    }
}

/// The tale that sentences mean, with what is kept beside it, or why they are refused, by what they claim.
fn meant_by(alloc: Global, claimed: &Claimed<'_>) -> Result<Meant, Fault>
    ensures meant { IfOk result (λ meant. AreMeant claimed.now meant.tale (contents_meant meant.contents)) }
    ensures lines { IfOk result (λ meant. meant.scene_lines.items ≡ scene_lines (scope_said claimed.now) claimed.now (length meant.tale.declared.scenes)) }
    ensures refused { IfErr result (λ fault. AreRefused claimed.now fault ⊎ (fault ≡ out_of_memory)) }
{
    let said = tale_of(alloc, claimed)?;
    let kept = meant_of(alloc, claimed, &said)?;
    Ok(Meant {
        tale: said.tale,
        contents: kept.contents,
        scene_lines: kept.scene_lines,
    })
}

/// The tale that sentences mean, and what they say of it, or why they are refused.
pub fn tale_meant(alloc: Global, sentences: &[Sentence]) -> Result<Meant, Fault>
    ensures meant { IfOk result (λ meant. AreMeant sentences.now meant.tale (contents_meant meant.contents)) }
    ensures lines { IfOk result (λ meant. meant.scene_lines.items ≡ scene_lines (scope_said sentences.now) sentences.now (length meant.tale.declared.scenes)) }
    ensures refused { IfErr result (λ fault. AreRefused sentences.now fault ⊎ (fault ≡ out_of_memory)) }
{
    match Claimed::new(alloc, sentences) {
        Ok(claimed) => Ok(meant_by(alloc, &claimed)?),
        Err(_) => Err(Fault::OUT_OF_MEMORY),
    }
}
