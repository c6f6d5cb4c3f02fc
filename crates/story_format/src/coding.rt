//! The tables of a tale with the codes of what its descriptions and its rules say, and of what its scenes begin and end on.
ghost use Rattle.std.specs.Prelude.{◌≡◌, ◌&&◌, IfErr, IfOk, OnOk, length, nat_lt};
ghost use Rattle.std.specs.List.{list_all};
ghost use Rattle.object_words.specs.Mentions.{number_in};
ghost use Rattle.code_table.specs.Emitted.{AllFit, CanBeSaid};
ghost use Rattle.story_format.specs.Codes.{counts_of};
ghost use Rattle.story_format.specs.Contents.{contents_meant, origins_said};
ghost use Rattle.story_format.specs.Holding.{AreCountsOf, AreHeld, AreNotHeld, AreOf, HasNoCodes, IsHeld, is_short};
ghost use Rattle.story_format.specs.Making.{code_bytes, strings_with, tables_of, tables_uncoded};

use crate::contents::Contents;
use crate::counts::counts_of;
use crate::making::uncoded;
use crate::table::Table;
use crate::tables::Tables;
use code_table::{TableFault, code_table};
use object_words::Strings;
use play_meaning::Counts;
use std::alloc::{AllocError, Global};
use world_meaning::{Tale, TextBytes};

fn is_short(text: &[u8]) -> bool
    ensures { result ≡ is_short text.now }
{
    text.len() < 65536
}

fn are_short(strings: &[TextBytes]) -> bool
    ensures { result ≡ list_all is_short strings.now }
{
    strings.iter().all(|string| is_short(string.as_slice()))
}

/// Whether there are fewer strings than two bytes number, of 65,535 bytes at most.
fn are_few(strings: &[TextBytes]) -> bool
    ensures { result ≡ (nat_lt (length strings.now) 65535 && list_all is_short strings.now) }
{
    strings.len() < 65535 && are_short(strings)
}

/// The tables with the codes of what is said.
fn with_codes(
    alloc: Global,
    strings: &Strings,
    tables: Tables,
    contents: &Contents,
) -> Result<Tables, TableFault>
    ensures coded { IfOk result (λ coded. coded ≡ record tables { codes = code_bytes strings.now (origins_said (contents_meant contents.now)) }) }
    ensures fit { OnOk result (AllFit (counts_of tables) (number_in strings.now) (origins_said (contents_meant contents.now))) }
    ensures said { OnOk result (CanBeSaid (number_in strings.now) (origins_said (contents_meant contents.now))) }
    ensures none { IfErr result (HasNoCodes (counts_of tables) (number_in strings.now) (contents_meant contents.now)) }
{
    let texts = contents.texts.as_slice();
    let rules = contents.rules.as_slice();
    let scenes = contents.scenes.as_slice();
    match code_table(alloc, &counts_of(&tables), strings, texts, rules, scenes) {
        Ok(codes) => {
            let mut tables = tables;
            tables.codes = Table::new(codes);
            Ok(tables)
        }
        Err(fault) => {
            drop(tables);
            Err(fault)
        }
    }
}

/// The tables without codes of a tale of which this is said, and their strings.
fn uncoded_of(
    alloc: Global,
    tale: &Tale,
    contents: &Contents,
) -> Result<(Strings, Tables), AllocError>
    requires held { IsHeld tale.now }
    requires are_of { AreOf tale.now (contents_meant contents.now) }
    ensures strings { IfOk result (λ made. made.0 ≡ strings_with tale.now (contents_meant contents.now)) }
    ensures tables { IfOk result (λ made. made.1 ≡ tables_uncoded tale.now (contents_meant contents.now)) }
{
    uncoded(alloc, tale, contents)
}

/// The tables of a tale of which this is said.
///
/// # Errors
///
/// `TooLong` only where a text, a rule or a scene says what doesn't fit, or has codes that bytes can't say; `TooMany` only where
/// there are more codes or strings than two bytes number, or a string is too long; and `Memory`.
pub fn tables_of(alloc: Global, tale: &Tale, contents: &Contents) -> Result<Tables, TableFault>
    requires held { IsHeld tale.now }
    requires are_of { AreOf tale.now (contents_meant contents.now) }
    ensures tables { IfOk result (λ tables. tables ≡ tables_of tale.now (contents_meant contents.now)) }
    ensures said { OnOk result (AreHeld tale.now (contents_meant contents.now)) }
    ensures none { IfErr result (AreNotHeld tale.now (contents_meant contents.now)) }
{
    let Ok((strings, tables)) = uncoded_of(alloc, tale, contents) else {
        return Err(TableFault::Memory);
    };
    if !are_few(tables.strings.as_slice()) {
        return Err(TableFault::TooMany);
    }
    with_codes(alloc, &strings, tables, contents)
}

/// How many there are of what codes name, and the strings by number, of the story of a tale of which this is said.
pub fn numbered(
    alloc: Global,
    tale: &Tale,
    contents: &Contents,
) -> Result<(Counts, Strings), AllocError>
    requires held { IsHeld tale.now }
    requires are_of { AreOf tale.now (contents_meant contents.now) }
    ensures counts { IfOk result (λ found. AreCountsOf tale.now (contents_meant contents.now) found.0) }
    ensures strings { IfOk result (λ found. found.1 ≡ strings_with tale.now (contents_meant contents.now)) }
{
    let (strings, tables) = uncoded_of(alloc, tale, contents)?;
    Ok((counts_of(&tables), strings))
}
