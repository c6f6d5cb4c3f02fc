//! Whether phrases and bodies fit.
ghost use Rattle.std.specs.Prelude.{◌≡◌, ◌≤◌};
ghost use Rattle.std.specs.List.{list_all};
ghost use Rattle.object_words.specs.Mentions.{number_in};
ghost use Rattle.play_meaning.specs.Meant.{body_meant, phrase_meant, simple_meant};
ghost use Rattle.story_code.specs.Fits.{body_fits, branch_fits, phrase_fits};

use crate::fitting::condition::condition_fits;
use crate::fitting::number::number_fits;
use crate::fitting::object::{OPERANDS, object_fits, objects_fit, test_fits};
use crate::fitting::text::text_fits;
use crate::named::value_count;
use object_words::Strings;
use play_meaning::tree::{Branch, Phrase, Simple};
use play_meaning::{Counts, Use};

/// Whether phrases fit inside so many loops.
#[cycle(bodies)]
pub(crate) fn body_fits(counts: &Counts, strings: &Strings, loops: u8, body: &[Phrase]) -> bool
    requires { loops ≤ 9 }
    ensures { result ≡ body_fits counts.now (number_in strings.now) loops (body_meant body.now) }
{
    for at in 0..body.len() {
        if !phrase_fits(counts, strings, loops, &body[at]) {
            return false;
        }
    }
    true
}

/// Whether a phrase fits.
#[cycle(bodies)]
fn phrase_fits(counts: &Counts, strings: &Strings, loops: u8, phrase: &Phrase) -> bool
    requires { loops ≤ 9 }
    ensures { result ≡ phrase_fits counts.now (number_in strings.now) loops (phrase_meant phrase.now) }
{
    match phrase {
        Phrase::Plain(simple) => simple_fits(counts, strings, loops, simple),
        Phrase::Instead(simple) => simple_fits(counts, strings, loops, simple),
        Phrase::If(first, branches, others) => {
            if !branch_fits(counts, strings, loops, first) {
                return false;
            }
            if !branches_fit(counts, strings, loops, branches.as_slice()) {
                return false;
            }
            body_fits(counts, strings, loops, others.as_slice())
        }
        Phrase::Repeat(description, phrases) => {
            if !test_fits(counts, loops, description) {
                return false;
            }
            body_fits(counts, strings, loops + 1, phrases.as_slice())
        }
    }
}

/// Whether each of these fits.
#[cycle(bodies)]
fn branches_fit(counts: &Counts, strings: &Strings, loops: u8, branches: &[Branch]) -> bool
    requires { loops ≤ 9 }
    ensures { result ≡ list_all (branch_fits counts.now (number_in strings.now) loops) branches.now }
{
    for at in 0..branches.len() {
        if !branch_fits(counts, strings, loops, &branches[at]) {
            return false;
        }
    }
    true
}

/// Whether a branch fits: its condition, and what is done where that holds.
#[cycle(bodies)]
fn branch_fits(counts: &Counts, strings: &Strings, loops: u8, branch: &Branch) -> bool
    requires { loops ≤ 9 }
    ensures { result ≡ branch_fits counts.now (number_in strings.now) loops branch.now }
{
    condition_fits(counts, loops, &branch.condition, OPERANDS)
        && body_fits(counts, strings, loops, branch.phrases.as_slice())
}

/// Whether a phrase without phrases of its own fits.
#[tactic(auto, unfolding(crate::specs::Fits::phrase_fits))]
fn simple_fits(counts: &Counts, strings: &Strings, loops: u8, simple: &Simple) -> bool
    ensures { result ≡ phrase_fits counts.now (number_in strings.now) loops (simple_meant simple.now) }
{
    match simple {
        Simple::Say(text) => text_fits(counts, Use::Body, strings, loops, text),
        Simple::NowIs(object, property, _) => {
            (*property as u16) < counts.flags && object_fits(counts, loops, object, OPERANDS)
        }
        Simple::NowHeld(object, _, holder) => objects_fit(counts, loops, object, holder, OPERANDS),
        Simple::NowNowhere(object) => object_fits(counts, loops, object, OPERANDS),
        Simple::Move(object, holder) => objects_fit(counts, loops, object, holder, OPERANDS),
        Simple::NowNumber(property, object, number) => {
            (*property as u16) < counts.numbers
                && object_fits(counts, loops, object, OPERANDS)
                && number_fits(counts, loops, number, OPERANDS - 1)
        }
        Simple::NowVariable(variable, number) => {
            (*variable as u16) < counts.variables && number_fits(counts, loops, number, OPERANDS)
        }
        Simple::NowValued(object, kind, value) => {
            *value < value_count(counts, *kind) && object_fits(counts, loops, object, OPERANDS)
        }
        Simple::Try(_, action, noun, second) => {
            (action.get() as u16) < counts.actions
                && objects_fit(counts, loops, noun, second, OPERANDS)
        }
        Simple::Follow(book) => *book < counts.books,
        Simple::Leave(_) => true,
        Simple::EndStory(text) => strings.number_of(text.as_slice()) < counts.strings,
    }
}
