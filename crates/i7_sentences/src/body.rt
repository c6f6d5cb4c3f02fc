//! A rule's body, cut into its phrases.
ghost use Rattle.std.specs.Prelude.{◌≡◌, ◌≤◌, length, IfOk, OnOk};
ghost use Rattle.i7_sentences.specs.PhraseMarks.{is_no_mark, is_pause};
ghost use Rattle.i7_sentences.specs.Bodies.{body_lines, comma_len, ends_phrase, head_len, indent_at, indent_before, indent_behind, is_comma, is_empty_run, is_nothing, is_same_phrase, is_semicolon, is_spelled_so, lines_of, mark_at, mark_behind, mark_of, opens_inline, past, phrase_in, phrase_of, phrases_of, unmarked, with_piece, with_run};
ghost use Rattle.i7_sentences.specs.Cuts.{cut, line_in, opens_nothing};
ghost use Rattle.i7_sentences.specs.Pieces.{piece_len};

use crate::cut::{ends_sentence, is_colon, is_full_stop, is_mark, may_begin};
use crate::phrase_mark::{PhraseMark, is_no_mark, is_pause};
use crate::word::word_of;
use i7_lexer::{PackedToken, Start};
use std::alloc::{AllocError, Global};
use world_meaning::is_spelled;

/// A phrase of a body, without the mark that ends it.
#[derive(Drop)]
pub struct PhraseLine<'a> {
    pub tokens: &'a [PackedToken],
    pub mark: PhraseMark,
    /// The line of its first token.
    pub line: u32,
    /// How many tabs that line begins with, 0 on the line of the rule.
    pub indent: u32,
    /// The same of the line at which it ends.
    pub last_indent: u32,
}

/// The phrases so far, and the indent of the line at which they end.
#[derive(Drop)]
struct BodyLines<'a> {
    indent: u32,
    all: Vec<PhraseLine<'a>>,
}

/// Whether the token is a `;`.
fn is_semicolon(token: &PackedToken) -> bool
    ensures { result ≡ is_semicolon token.now }
{
    is_mark(b';', token)
}

/// Whether the token is a `,`.
fn is_comma(token: &PackedToken) -> bool
    ensures { result ≡ is_comma token.now }
{
    is_mark(b',', token)
}

/// Whether a phrase ends at the token, in front of the next.
fn ends_phrase(token: &PackedToken, next: &PackedToken) -> bool
    ensures { result ≡ ends_phrase token.now next.now }
{
    is_semicolon(token)
        || is_full_stop(token)
        || is_colon(token)
        || ends_sentence(token) && may_begin(next)
}

/// The number of tokens of the first phrase, with its mark.
fn phrase_len(tokens: &[PackedToken]) -> usize
    ensures len { result ≡ piece_len opens_nothing is_same_phrase tokens.now }
    ensures within { result ≤ length tokens.now }
{
    let mut count = 0;
    let mut rest = tokens;
    while let [token, after @ ..] = rest {
        count += 1;
        rest = after;
        match after {
            [] => {}
            [next, ..] => {
                if ends_phrase(token, next) {
                    return count;
                }
            }
        }
    }
    count
}

/// The number of tokens up to the first comma, the comma among them; all of them without one.
fn comma_len(tokens: &[PackedToken]) -> usize
    ensures len { result ≡ comma_len tokens.now }
    ensures within { result ≤ length tokens.now }
{
    let mut count = 0;
    let mut rest = tokens;
    while let [token, after @ ..] = rest {
        count += 1;
        if is_comma(token) {
            return count;
        }
        rest = after;
    }
    count
}

/// Whether the word is spelled so.
pub fn is_spelled_so(token: &PackedToken, word: &[u8]) -> bool
    ensures { result ≡ is_spelled_so token.now word.now }
{
    is_spelled(word_of(token), word)
}

/// Whether a phrase stands behind an `otherwise`, neither a colon nor an `if`.
fn opens_inline(tokens: &[PackedToken]) -> bool
    ensures { result ≡ opens_inline tokens.now }
{
    match tokens {
        [] => false,
        [next, ..] => !(is_colon(next) || is_spelled_so(next, b"if")),
    }
}

/// How many tokens of a phrase belong to what stands in front of another: `if C,` or `otherwise`; all of
/// them where it isn't so.
fn head_len(tokens: &[PackedToken]) -> usize
    ensures len { result ≡ head_len tokens.now }
    ensures within { result ≤ length tokens.now }
{
    match tokens {
        [] => 0,
        [first, rest @ ..] => {
            if is_spelled_so(first, b"if") {
                1 + comma_len(rest)
            } else if is_spelled_so(first, b"otherwise") && opens_inline(rest) {
                1
            } else {
                1 + rest.len()
            }
        }
    }
}

/// The indent of the line of a token, behind a token of a line with this indent.
fn indent_at(indent: u32, token: &PackedToken) -> u32
    ensures { result ≡ indent_at indent token.now }
{
    match token.start() {
        Start::Paragraph => 0,
        Start::Line { indent: tabs } => tabs,
        Start::Within | Start::Across => indent,
    }
}

/// The indent of the line at which these tokens end.
fn indent_behind(indent: u32, tokens: &[PackedToken]) -> u32
    ensures { result ≡ indent_behind indent tokens.now }
{
    let mut at = indent;
    let mut rest = tokens;
    while let [token, after @ ..] = rest {
        at = indent_at(at, token);
        rest = after;
    }
    at
}

/// The mark that the last token is.
fn mark_of(token: &PackedToken) -> PhraseMark
    ensures { result ≡ mark_of token.now }
{
    if is_semicolon(token) {
        PhraseMark::Semicolon
    } else if is_full_stop(token) {
        PhraseMark::Stop
    } else if is_colon(token) {
        PhraseMark::Colon
    } else if is_comma(token) {
        PhraseMark::Comma
    } else {
        PhraseMark::Nothing
    }
}

/// The mark that the first of these tokens is.
fn mark_at(tokens: &[PackedToken]) -> PhraseMark
    ensures { result ≡ mark_at tokens.now }
{
    match tokens {
        [] => PhraseMark::Nothing,
        [token, ..] => mark_of(token),
    }
}

/// The mark at the end of these tokens.
fn mark_behind(run: &[PackedToken]) -> PhraseMark
    ensures { result ≡ mark_behind run.now }
{
    let (_, last) = run.split_at(run.len().saturating_sub(1));
    mark_at(last)
}

/// The tokens without the mark at their end.
fn unmarked(run: &[PackedToken]) -> &[PackedToken]
    ensures { result.now ≡ unmarked run.now }
{
    if is_no_mark(mark_behind(run)) {
        return run;
    }
    let (front, _) = run.split_at(run.len().saturating_sub(1));
    front
}

/// Whether the tokens are no phrase: nothing but a mark that ends one.
fn is_nothing(run: &[PackedToken]) -> bool
    ensures { result ≡ is_nothing run.now }
{
    is_empty_run(unmarked(run)) && is_pause(mark_behind(run))
}

/// Whether there are no tokens.
fn is_empty_run(run: &[PackedToken]) -> bool
    ensures { result ≡ is_empty_run run.now }
{
    match run {
        [] => true,
        [_, ..] => false,
    }
}

/// The line of the first token.
pub fn line_in(run: &[PackedToken]) -> u32
    ensures { result ≡ line_in run.now }
{
    match run {
        [] => 1,
        [first, ..] => first.line(),
    }
}

/// The indent of the line at which the tokens begin.
fn indent_before(indent: u32, run: &[PackedToken]) -> u32
    ensures { result ≡ indent_before indent run.now }
{
    match run {
        [] => indent,
        [first, ..] => indent_at(indent, first),
    }
}

/// The phrase that these tokens are, behind a line of this indent.
fn phrase_in(indent: u32, run: &[PackedToken]) -> PhraseLine<'_>
    ensures { phrase_of result ≡ phrase_in indent run.now }
{
    PhraseLine {
        tokens: unmarked(run),
        mark: mark_behind(run),
        line: line_in(run),
        indent: indent_before(indent, run),
        last_indent: indent_behind(indent, run),
    }
}

/// Goes on behind tokens that are no phrase.
fn pass(run: &[PackedToken], lines: &mut BodyLines<'_>)
    ensures { lines_of lines.new ≡ past (lines_of lines.old) run.now }
{
    lines.indent = indent_behind(lines.indent, run);
}

/// Adds the phrase that the tokens are, be it an empty one; none where there are no tokens.
fn add_run<'a>(run: &'a [PackedToken], lines: &mut BodyLines<'a>) -> Result<(), AllocError>
    ensures { OnOk result (lines_of lines.new ≡ with_run (lines_of lines.old) run.now) }
{
    if !is_empty_run(run) {
        lines.all.push(phrase_in(lines.indent, run))?;
        lines.indent = indent_behind(lines.indent, run);
    }
    Ok(())
}

/// Adds the phrases of a piece: what stands in front of another, and that other, be it an empty one.
fn add_piece<'a>(piece: &'a [PackedToken], lines: &mut BodyLines<'a>) -> Result<(), AllocError>
    ensures { OnOk result (lines_of lines.new ≡ with_piece (lines_of lines.old) piece.now) }
{
    if is_nothing(piece) {
        pass(piece, lines);
        return Ok(());
    }
    let (head, behind) = piece.split_at(head_len(piece));
    add_run(head, lines)?;
    add_run(behind, lines)
}

/// The phrases of a rule's body, in order, each with its line and indent: one that stands behind `if C,` or
/// `otherwise` is a phrase of its own.
#[tactic(auto, using(crate::proofs::Cutting::cut_steps))]
pub fn phrases_of(alloc: Global, body: &[PackedToken]) -> Result<Vec<PhraseLine<'_>>, AllocError>
    ensures { IfOk result (λ lines. phrases_of lines.items ≡ body_lines body.now) }
{
    let mut lines = BodyLines {
        indent: 0,
        all: Vec::new(alloc),
    };
    let mut rest = body;
    while !rest.is_empty() {
        let (piece, behind) = rest.split_at(phrase_len(rest));
        add_piece(piece, &mut lines)?;
        rest = behind;
    }
    Ok(lines.all)
}
