//! Table 9 of a tale: the lines of its grammar, and the strings that they name.
ghost use Rattle.std.specs.Prelude.{◌≡◌, ◌++◌, IfOk, OnOk, fold, map};
ghost use Rattle.std.specs.List.{flat_map};
ghost use Rattle.command_grammar.specs.Lines.{line_meant, token_meant};
ghost use Rattle.object_words.specs.Mentions.{mention};
ghost use Rattle.story_format.specs.Making.{line_entry, line_strings, token_number, token_strings};

use crate::grammar_facts::{DIRECTION, SOMETHING};
use crate::rule_tables::LineEntry;
use command_grammar::{GrammarLine, KeptToken};
use object_words::Strings;
use std::alloc::{AllocError, Global};
use world_meaning::Listed;

/// Mentions a token's word.
fn mention_token(alloc: Global, strings: &mut Strings, token: &KeptToken) -> Result<(), AllocError>
    ensures { OnOk result (strings.new ≡ fold mention strings.old (token_strings (token_meant token.now))) }
{
    match token {
        KeptToken::Word(word) => strings.mention(alloc, word.as_slice()),
        KeptToken::Something => Ok(()),
        KeptToken::Direction => Ok(()),
    }
}

/// Mentions the words of a line.
#[tactic(auto, using(object_words::proofs::Folds::fold_both))]
fn mention_line(alloc: Global, strings: &mut Strings, line: &GrammarLine) -> Result<(), AllocError>
    ensures { OnOk result (strings.new ≡ fold mention strings.old (line_strings (line_meant line.now))) }
{
    let mut rest = line.tokens.as_slice();
    while let [token, behind @ ..] = rest {
        mention_token(alloc, strings, token)?;
        rest = behind;
    }
    Ok(())
}

/// Mentions the words of lines.
#[tactic(auto, using(object_words::proofs::Folds::fold_both))]
pub fn mention_lines(
    alloc: Global,
    strings: &mut Strings,
    lines: &[GrammarLine],
) -> Result<(), AllocError>
    ensures { OnOk result (strings.new ≡ fold mention strings.old (flat_map line_strings (map line_meant lines.now))) }
{
    let mut rest = lines;
    while let [line, behind @ ..] = rest {
        mention_line(alloc, strings, line)?;
        rest = behind;
    }
    Ok(())
}

fn token_number(strings: &Strings, token: &KeptToken) -> u16
    ensures { result ≡ token_number strings.now (token_meant token.now) }
{
    match token {
        KeptToken::Word(word) => strings.number_of(word.as_slice()),
        KeptToken::Something => SOMETHING,
        KeptToken::Direction => DIRECTION,
    }
}

fn token_numbers(
    alloc: Global,
    strings: &Strings,
    tokens: &[KeptToken],
) -> Result<Listed<u16>, AllocError>
    ensures { IfOk result (λ numbers. numbers ≡ map (token_number strings.now) (map token_meant tokens.now)) }
{
    let mut numbers = Vec::new(alloc);
    let mut rest = tokens;
    while let [token, behind @ ..] = rest {
        numbers.push(token_number(strings, token))?;
        rest = behind;
    }
    Ok(Listed::new(numbers))
}

/// Adds the entries of lines.
pub fn add_entries(
    alloc: Global,
    entries: &mut Vec<LineEntry>,
    strings: &Strings,
    lines: &[GrammarLine],
) -> Result<(), AllocError>
    ensures { OnOk result (entries.new.items ≡ entries.old.items ++ map (line_entry strings.now) (map line_meant lines.now)) }
{
    let mut rest = lines;
    while let [line, behind @ ..] = rest {
        let tokens = token_numbers(alloc, strings, line.tokens.as_slice())?;
        let action = line.action.get();
        entries.push(LineEntry { action, tokens })?;
        rest = behind;
    }
    Ok(())
}
