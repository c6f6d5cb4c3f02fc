//! The compiler: from a source's bytes to a story's.
ghost use Rattle.std.specs.Prelude.{◌≡◌, ◌⊎◌, IfErr, IfOk, MatchResult, length};
ghost use Rattle.story_format.specs.Contents.{contents_meant};
ghost use Rattle.story_format.specs.Holding.{AreOf, IsHeld};
ghost use Rattle.story_file.specs.Compilations.{IsCompiled, IsRefused, IsTold, Says};
ghost use Rattle.story_file.specs.Lines.{scene_lines};
ghost use Rattle.story_file.specs.Meanings.{scope_said};
ghost use Rattle.world_meaning.specs.Faults.{out_of_memory};

use crate::long_ones::line_told;
use crate::meaning::{Meant, tale_meant};
use code_table::TableFault;
use i7_lexer::lex;
use i7_sentences::{Sentence, read};
use std::alloc::Global;
use story_format::write;
use world_meaning::{Fault, FaultCode};

/// The sentences that the source says.
fn sentences_said(alloc: Global, source: &[u8]) -> Result<Vec<Sentence>, Fault>
    ensures said { IfOk result (λ sentences. Says source.now sentences.items) }
    ensures refused { IfErr result (IsRefused source.now) }
{
    let lexed = lex(alloc, source)?;
    let sentences = read(alloc, &lexed)?;
    Ok(sentences)
}

/// How it is told that no story file says what sentences mean: C12 at the lowest line of what is too long.
fn fault_told(alloc: Global, sentences: &[Sentence], meant: &Meant, fault: TableFault) -> Fault
    requires held { IsHeld meant.now.tale }
    requires are_of { AreOf meant.now.tale (contents_meant meant.now.contents) }
    requires lines { meant.now.scene_lines.items ≡ scene_lines (scope_said sentences.now) sentences.now (length meant.now.tale.declared.scenes) }
    ensures { IsTold sentences.now meant.now.tale (contents_meant meant.now.contents) fault result ⊎ (result ≡ out_of_memory) }
{
    if fault == TableFault::Memory {
        return Fault::OUT_OF_MEMORY;
    }
    match line_told(alloc, sentences, meant) {
        Err(_) => Fault::OUT_OF_MEMORY,
        Ok(line) => Fault {
            code: FaultCode::TooMany,
            line,
        },
    }
}

/// The story file of a source, or the refusal that stands: that of the first step that refuses, each
/// step being the lexer, the reader of sentences, the tale, the rules with the sentences that list them, the texts that
/// describe, the scenes and the commands, and the story's codes (C12), in this order.
pub fn compile(alloc: Global, source: &[u8]) -> Result<Vec<u8>, Fault>
    ensures { MatchResult result (λ bytes. IsCompiled source.now bytes.items) (IsRefused source.now) }
{
    let sentences = sentences_said(alloc, source)?;
    let sentences = sentences.as_slice();
    let meant = match tale_meant(alloc, sentences) {
        Ok(meant) => meant,
        Err(fault) => return Err(fault),
    };
    match write(alloc, &meant.tale, &meant.contents) {
        Ok(bytes) => Ok(bytes),
        Err(fault) => Err(fault_told(alloc, sentences, &meant, fault)),
    }
}
