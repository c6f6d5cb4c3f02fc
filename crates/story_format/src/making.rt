//! The tables of a tale, but for their codes.
ghost use Rattle.std.specs.Prelude.{◌≡◌, ◌≤◌, [], length, IfOk, OnOk, fold, map};
ghost use Rattle.std.specs.List.{flat_map};
ghost use Rattle.command_grammar.specs.Lines.{line_meant};
ghost use Rattle.object_words.specs.Mentions.{first_mentions, mention, number_in};
ghost use Rattle.play_meaning.specs.StandardGrammar.{standard_lines};
ghost use Rattle.story_format.specs.Contents.{contents_meant};
ghost use Rattle.story_format.specs.Making.{books_of, worded, article_number, place_relation, place_holder, code_number, entry_strings, line_entry, story_lines, story_strings, story_tables, strings_with, entry_of, entries_of, texts_named, ways_of, described_in, tables_uncoded};
ghost use Rattle.world_meaning.specs.Relations.{relation_number};
ghost use Rattle.story_format.specs.WordedViews.{worded_of, all_worded};

use crate::contents::Contents;
use crate::grammar_making::{add_entries, mention_lines};
use crate::mentioning::mention_texts;
use crate::mentioning_rules::mention_rules;
use crate::ordering::books_of;
use crate::place::NONE;
use crate::rule_making::rules_of;
use crate::rule_tables::{Book, LineEntry};
use crate::table::Table;
use crate::tables::{Entry, Tables};
use crate::value_making::{mention_values, values_of};
use crate::world_making::{numbers_of, world_of};
use command_grammar::{GrammarLine, Synonym, standard_lines, words_said};
use object_words::Strings;
use std::alloc::{AllocError, Global};
use world_meaning::{
    Article, Declared, Exits, KindNo, Listed, Object, Place, Rel, Tale, TextBytes, is_under,
    relation_number,
};

/// An object, and the words that a command may name it by.
#[derive(Drop)]
pub struct Worded<'a> {
    pub object: &'a Object,
    words: Strings,
}

#[tactic(auto, using(object_words::proofs::Folds::fold_both))]
fn mention_all(alloc: Global, strings: &mut Strings, others: &Strings) -> Result<(), AllocError>
    ensures { OnOk result (strings.new ≡ fold mention strings.old others.now) }
{
    for string in others.as_slice() {
        strings.mention(alloc, string.as_slice())?;
    }
    Ok(())
}

/// The objects with their words, by number.
fn with_words<'a>(
    alloc: Global,
    synonyms: &[Synonym],
    objects: &'a [Object],
) -> Result<Vec<Worded<'a>>, AllocError>
    ensures { IfOk result (λ made. all_worded made.items ≡ worded synonyms.now objects.now) }
{
    let mut made = Vec::new(alloc);
    let mut number = 0usize;
    let mut rest = objects;
    while let [object, after @ ..] = rest {
        let words = words_said(alloc, synonyms, number, object.name.as_slice())?;
        made.push(Worded { object, words })?;
        number += 1;
        rest = after;
    }
    Ok(made)
}

#[tactic(auto, unfolding(crate::specs::Making::entry_strings), using(object_words::proofs::Folds::fold_both))]
fn mention_entry(
    alloc: Global,
    strings: &mut Strings,
    worded: &Worded<'_>,
) -> Result<(), AllocError>
    ensures { OnOk result (strings.new ≡ fold mention strings.old (entry_strings (worded_of worded.now))) }
{
    strings.mention(alloc, worded.object.name.as_slice())?;
    mention_all(alloc, strings, &worded.words)
}

#[tactic(auto, using(object_words::proofs::Folds::fold_both))]
fn mention_entries(
    alloc: Global,
    strings: &mut Strings,
    worded: &[Worded<'_>],
) -> Result<(), AllocError>
    ensures { OnOk result (strings.new ≡ fold mention strings.old (flat_map entry_strings (all_worded worded.now))) }
{
    let mut rest = worded;
    while let [one, after @ ..] = rest {
        mention_entry(alloc, strings, one)?;
        rest = after;
    }
    Ok(())
}

/// The strings that the entries of these objects name, and then those that lines do: the author's, and behind them the standard
/// ones.
#[tactic(auto, unfolding(crate::specs::Making::texts_named))]
fn named_of(
    alloc: Global,
    worded: &[Worded<'_>],
    lines: &[GrammarLine],
    standard: &[GrammarLine],
) -> Result<Strings, AllocError>
    requires standard { map line_meant standard.now ≡ standard_lines }
    ensures { IfOk result (λ strings. strings ≡ first_mentions (texts_named (all_worded worded.now) (story_lines (map line_meant lines.now)))) }
{
    let mut strings = Strings::new(alloc);
    mention_entries(alloc, &mut strings, worded)?;
    mention_lines(alloc, &mut strings, lines)?;
    mention_lines(alloc, &mut strings, standard)?;
    Ok(strings)
}

/// The strings of a story of these objects and lines, of what is said of them, and of the kinds of value.
fn strings_of(
    alloc: Global,
    worded: &[Worded<'_>],
    standard: &[GrammarLine],
    contents: &Contents,
    declared: &Declared,
) -> Result<Strings, AllocError>
    requires standard { map line_meant standard.now ≡ standard_lines }
    ensures { IfOk result (λ strings. strings ≡ story_strings declared.now (all_worded worded.now) (contents_meant contents.now)) }
{
    let texts = contents.texts.as_slice();
    let rules = contents.rules.as_slice();
    let mut strings = named_of(alloc, worded, contents.lines.as_slice(), standard)?;
    mention_texts(alloc, &mut strings, texts)?;
    mention_rules(alloc, &mut strings, rules)?;
    mention_values(alloc, &mut strings, declared.values.as_slice())?;
    Ok(strings)
}

fn article_number(article: Article) -> u8
    ensures { result ≡ article_number article }
{
    match article {
        Article::None => 0,
        Article::A => 1,
        Article::An => 2,
        Article::Some => 3,
    }
}

fn place_relation(place: Option<Place>) -> u8
    ensures { result ≡ place_relation place }
{
    match place {
        None => 255,
        Some(place) => relation_number(place.relation),
    }
}

fn place_holder(place: Option<Place>) -> u16
    ensures { result ≡ place_holder place }
{
    match place {
        None => NONE,
        Some(place) => place.holder.get(),
    }
}

fn code_number(next: usize, description: &Option<TextBytes>) -> u16
    ensures { result ≡ code_number next description.now }
{
    match description {
        None => NONE,
        Some(_) if next < 65535 => next as u16,
        Some(_) => NONE,
    }
}

fn word_numbers(
    alloc: Global,
    strings: &Strings,
    words: &Strings,
) -> Result<Listed<u16>, AllocError>
    ensures { IfOk result (λ numbers. numbers ≡ map (number_in strings.now) words.now) }
{
    let mut numbers = Vec::new(alloc);
    for word in words.as_slice() {
        numbers.push(strings.number_of(word.as_slice()))?;
    }
    Ok(Listed::new(numbers))
}

#[tactic(auto, unfolding(crate::specs::Making::entry_of))]
fn entry_of(
    alloc: Global,
    strings: &Strings,
    next: usize,
    worded: &Worded<'_>,
) -> Result<Entry, AllocError>
    ensures { IfOk result (λ entry. entry ≡ entry_of strings.now next (worded_of worded.now)) }
{
    let object = worded.object;
    Ok(Entry {
        kind: object.kind.get(),
        name: strings.number_of(object.name.as_slice()),
        article: article_number(object.article),
        description: code_number(next, &object.description),
        words: word_numbers(alloc, strings, &worded.words)?,
        relation: place_relation(object.place),
        holder: place_holder(object.place),
        properties: Listed::new(Vec::from_slice(alloc, object.properties.as_slice())?),
        numbers: Listed::new(numbers_of(alloc, object.numbers.as_slice())?),
    })
}

#[tactic(auto, unfolding(crate::specs::Making::entries_of), using(object_words::proofs::Folds::one_behind))]
fn entries_of(
    alloc: Global,
    strings: &Strings,
    worded: &[Worded<'_>],
) -> Result<Table<Entry>, AllocError>
    ensures { IfOk result (λ entries. entries ≡ entries_of strings.now 0 (all_worded worded.now)) }
{
    let mut entries = Vec::new(alloc);
    let mut next = 0usize;
    let mut rest = worded;
    while let [one, after @ ..] = rest {
        entries.push(entry_of(alloc, strings, next, one)?)?;
        if one.object.description.is_some() {
            next += 1;
        }
        rest = after;
    }
    Ok(Table::new(entries))
}

fn ways_of(
    alloc: Global,
    parents: &[Option<KindNo>],
    worded: &[Worded<'_>],
) -> Result<Table<Exits>, AllocError>
    ensures { IfOk result (λ ways. ways ≡ flat_map (ways_of parents.now) (all_worded worded.now)) }
{
    let mut ways = Vec::new(alloc);
    let mut rest = worded;
    while let [one, after @ ..] = rest {
        if is_under(parents, one.object.kind, KindNo::ROOM) {
            ways.push(one.object.exits)?;
        }
        rest = after;
    }
    Ok(Table::new(ways))
}

/// The table of these strings.
fn table_of(alloc: Global, strings: &Strings) -> Result<Table<TextBytes>, AllocError>
    ensures { IfOk result (λ table. table ≡ strings.now) }
{
    let mut all = Vec::new(alloc);
    for string in strings.as_slice() {
        all.push(TextBytes::copied(alloc, string.as_slice())?)?;
    }
    Ok(Table::new(all))
}

/// A table without entries.
fn empty<F: Drop>(alloc: Global) -> Table<F>
    ensures { result ≡ [] }
{
    Table::new(Vec::new(alloc))
}

/// How many of the objects are described.
fn described_in(worded: &[Worded<'_>]) -> usize
    ensures { result ≡ described_in (all_worded worded.now) }
{
    let mut count = 0usize;
    let mut rest = worded;
    while let [one, after @ ..] = rest {
        if one.object.description.is_some() {
            count += 1;
        }
        rest = after;
    }
    count
}

/// Table 9: the author's lines, and behind them the standard ones.
fn grammar_of(
    alloc: Global,
    strings: &Strings,
    lines: &[GrammarLine],
    standard: &[GrammarLine],
) -> Result<Table<LineEntry>, AllocError>
    requires standard { map line_meant standard.now ≡ standard_lines }
    ensures { IfOk result (λ entries. entries ≡ map (line_entry strings.now) (story_lines (map line_meant lines.now))) }
{
    let mut entries = Vec::new(alloc);
    add_entries(alloc, &mut entries, strings, lines)?;
    add_entries(alloc, &mut entries, strings, standard)?;
    Ok(Table::new(entries))
}

/// The tables of what is declared, objects with their words, lines, rules and scenes, but for the codes.
fn tables_but_codes(
    alloc: Global,
    declared: &Declared,
    lines: Table<LineEntry>,
    books: Table<Book>,
    worded: &[Worded<'_>],
    contents: &Contents,
    strings: &Strings,
) -> Result<Tables, AllocError>
    requires lines { lines ≡ map (line_entry strings.now) (story_lines (contents_meant contents.now).lines) }
    requires few { described_in (all_worded worded.now) ≤ 1000 }
    requires few_rules { length contents.now.rules.items ≤ 1939 }
    requires few_scenes { length contents.now.scenes.items ≤ 50 }
    ensures { IfOk result (λ tables. tables ≡ story_tables declared.now books (all_worded worded.now) (contents_meant contents.now) strings.now) }
{
    let rules = contents.rules.as_slice();
    let scenes = contents.scenes.as_slice();
    Ok(Tables {
        strings: table_of(alloc, strings)?,
        world: world_of(alloc, declared)?,
        objects: entries_of(alloc, strings, worded)?,
        ways: ways_of(alloc, declared.kinds.as_slice(), worded)?,
        rules: rules_of(
            alloc,
            declared,
            lines,
            books,
            described_in(worded),
            rules,
            scenes,
        )?,
        codes: empty(alloc),
        values: values_of(alloc, strings, declared, worded)?,
    })
}

/// The tables of a tale but for their codes, and their strings.
pub fn uncoded(
    alloc: Global,
    tale: &Tale,
    contents: &Contents,
) -> Result<(Strings, Tables), AllocError>
    requires few { described_in (worded contents.now.synonyms.items tale.now.objects) ≤ 1000 }
    requires few_kinds { length tale.now.declared.kinds ≤ 255 }
    requires few_rules { length contents.now.rules.items ≤ 1939 }
    requires few_told { length contents.now.scenes.items ≤ 50 }
    requires few_scenes { length tale.now.declared.scenes ≤ 50 }
    requires few_books { tale.now.declared.rulebooks ≤ 100 }
    ensures strings { IfOk result (λ made. made.0 ≡ strings_with tale.now (contents_meant contents.now)) }
    ensures tables { IfOk result (λ made. made.1 ≡ tables_uncoded tale.now (contents_meant contents.now)) }
{
    let standard = standard_lines(alloc)?;
    let standard = standard.as_slice();
    let worded = with_words(alloc, contents.synonyms.as_slice(), tale.objects.as_slice())?;
    let worded = worded.as_slice();
    let strings = strings_of(alloc, worded, standard, contents, &tale.declared)?;
    let lines = grammar_of(alloc, &strings, contents.lines.as_slice(), standard)?;
    let (rules, listings) = (contents.rules.as_slice(), contents.listings.as_slice());
    let books = books_of(alloc, tale, rules, listings)?;
    let tables = tables_but_codes(
        alloc,
        &tale.declared,
        lines,
        books,
        worded,
        contents,
        &strings,
    )?;
    Ok((strings, tables))
}
