//! From where pieces can fit words: for each piece, from the last to the first, a column that tells of
//! each count of words left whether the pieces from that one on can fit them.
ghost use Rattle.std.specs.Prelude.{◌≡◌, true, false, ◌&&◌, ◌++◌, [], IfNone, IfOk, IfSome, OnSome};
ghost use Rattle.std.specs.List.{list_any};
ghost use Rattle.i7_sentences.specs.Keywords.{is_sign};
ghost use Rattle.i7_sentences.specs.Matching.{ahead_at, ahead_of_alone, ahead_of_more, ahead_of_names, ahead_of_none, ahead_of_run, ahead_of_side, columns_of, end_column, first_column, is_never, letter_column, looked, piece_column, reaches, then_ahead, word_column};
ghost use Rattle.i7_sentences.specs.WordColumns.{is_words, words_column};

use crate::class::{State, names_step, side_step};
use crate::column_stack::ColumnStack;
use crate::tagged::Tagged;
use crate::{Class, Keyword, Piece};
use std::alloc::{AllocError, Global};

/// Whether a letter that is read so far can end in the words left, with the pieces behind it.
#[derive(Clone, Copy)]
struct Ahead {
    start: bool,
    inside: bool,
    between: bool,
    beside: bool,
}

impl Ahead {
    fn at(self, state: State) -> bool
        ensures { result ≡ ahead_at self state }
    {
        match state {
            State::Start => self.start,
            State::Inside => self.inside,
            State::Between => self.between,
            State::Beside => self.beside,
        }
    }

    fn then(self, state: Option<State>) -> bool
        ensures { result ≡ then_ahead self state }
    {
        match state {
            None => false,
            Some(after) => self.at(after),
        }
    }

    /// With no word left; `can` tells whether the pieces behind the letter can fit none.
    fn of_none(can: bool) -> Ahead
        ensures { result ≡ ahead_of_none can }
    {
        Ahead {
            start: State::Start.accepts() && can,
            inside: State::Inside.accepts() && can,
            between: State::Between.accepts() && can,
            beside: State::Beside.accepts() && can,
        }
    }

    fn reaches(self, class: Class, can: bool, token: &Tagged<'_>, state: State) -> bool
        ensures { result ≡ reaches class self can token.now state }
    {
        state.accepts() && can || self.then(class.step(state, token))
    }

    /// With one more word in front; `can` tells whether the pieces behind the letter can fit here.
    #[tactic(auto, unfolding(crate::specs::Automata::names_step, crate::specs::Automata::side_step))]
    fn of_more(self, class: Class, can: bool, token: &Tagged<'_>) -> Ahead
        ensures { result ≡ ahead_of_more class self can token.now }
    {
        match class {
            Class::Words | Class::Name | Class::What | Class::Usual | Class::Texts | Class::Head =>
                self.of_run(can, class.step(State::Start, token)),
            Class::Article | Class::Number | Class::Text => self.of_alone(
                can,
                class.step(State::Start, token),
            ),
            Class::Names => self.of_names(
                can,
                names_step(State::Start, token),
                names_step(State::Inside, token),
            ),
            Class::Side => self.of_side(
                can,
                side_step(State::Start, token),
                side_step(State::Between, token),
                side_step(State::Beside, token),
            ),
            Class::Body | Class::Asked => Ahead {
                start: self.reaches(class, can, token, State::Start),
                inside: self.reaches(class, can, token, State::Inside),
                between: self.reaches(class, can, token, State::Between),
                beside: self.reaches(class, can, token, State::Beside),
            },
        }
    }

    /// The same where the letter's step is one from every state.
    fn of_run(self, can: bool, step: Option<State>) -> Ahead
        ensures { result ≡ ahead_of_run self can step }
    {
        let behind = self.then(step);
        Ahead {
            start: behind,
            inside: can || behind,
            between: behind,
            beside: behind,
        }
    }

    /// The same where the letter is one token.
    fn of_alone(self, can: bool, step: Option<State>) -> Ahead
        ensures { result ≡ ahead_of_alone self can step }
    {
        Ahead {
            start: self.then(step),
            inside: can,
            between: false,
            beside: false,
        }
    }

    /// The same of names, whose steps at first and behind what parts two are one.
    fn of_names(self, can: bool, first: Option<State>, later: Option<State>) -> Ahead
        ensures { result ≡ ahead_of_names self can first later }
    {
        let begins = self.then(first);
        Ahead {
            start: begins,
            inside: can || self.then(later),
            between: begins,
            beside: false,
        }
    }

    /// The same of a side, which goes on behind no word with which it may end.
    fn of_side(
        self,
        can: bool,
        first: Option<State>,
        between: Option<State>,
        beside: Option<State>,
    ) -> Ahead
        ensures { result ≡ ahead_of_side self can first between beside }
    {
        Ahead {
            start: self.then(first),
            inside: can,
            between: self.then(between),
            beside: self.then(beside),
        }
    }
}

/// A column's answer for so many words left.
pub fn looked(column: &[bool], left: usize) -> bool
    ensures { result ≡ looked column.now left }
{
    column.get(left).copied().unwrap_or(false)
}

/// The column of no pieces, which fit no words alone.
fn end_column(mut column: Vec<bool>) -> Result<Vec<bool>, AllocError>
    requires { column.items ≡ [] }
    ensures { IfOk result (λ full. full.items ≡ end_column) }
{
    column.push(true)?;
    Ok(column)
}

/// Whether the word is the token, with the pieces behind it.
fn can_take(keyword: Keyword, token: &Tagged<'_>, behind: &[bool], left: usize) -> bool
    ensures { result ≡ (is_sign keyword token.now && looked behind.now left) }
{
    token.is_sign(keyword) && looked(behind, left)
}

/// The column in front of a word of the form.
fn word_column(
    mut column: Vec<bool>,
    keyword: Keyword,
    behind: &[bool],
    tokens: &[Tagged<'_>],
) -> Result<Vec<bool>, AllocError>
    requires { column.items ≡ [] }
    ensures { IfOk result (λ full. full.items ≡ word_column keyword behind.now tokens.now) }
{
    column.push(false)?;
    let mut place = tokens.len();
    while place > 0 {
        place -= 1;
        let (_, rest) = tokens.split_at(place);
        match rest {
            [] => return Ok(column),
            [token, after @ ..] => {
                column.push(can_take(keyword, token, behind, after.len()))?;
            }
        }
    }
    Ok(column)
}

/// The column in front of a letter.
fn letter_column(
    mut column: Vec<bool>,
    class: Class,
    behind: &[bool],
    tokens: &[Tagged<'_>],
) -> Result<Vec<bool>, AllocError>
    requires { column.items ≡ [] }
    ensures { IfOk result (λ full. full.items ≡ letter_column class behind.now tokens.now) }
{
    let mut ahead = Ahead::of_none(looked(behind, 0));
    column.push(ahead.start)?;
    let mut place = tokens.len();
    while place > 0 {
        place -= 1;
        let (_, rest) = tokens.split_at(place);
        match rest {
            [] => return Ok(column),
            [token, ..] => {
                ahead = ahead.of_more(class, looked(behind, rest.len()), token);
                column.push(ahead.start)?;
            }
        }
    }
    Ok(column)
}

/// Whether a letter of the class is one or more words, whatever they are.
fn is_words(class: Class) -> bool
    ensures { result ≡ is_words class }
{
    match class {
        Class::Words | Class::Name | Class::What | Class::Usual => true,
        Class::Names
        | Class::Article
        | Class::Side
        | Class::Number
        | Class::Text
        | Class::Texts
        | Class::Head
        | Class::Body
        | Class::Asked => false,
    }
}

/// The column in front of a letter of words.
fn words_column(
    mut column: Vec<bool>,
    behind: &[bool],
    tokens: &[Tagged<'_>],
) -> Result<Vec<bool>, AllocError>
    requires { column.items ≡ [] }
    ensures { IfOk result (λ full. full.items ≡ words_column behind.now tokens.now) }
{
    column.push(false)?;
    let mut inside = looked(behind, 0);
    let mut place = tokens.len();
    while place > 0 {
        place -= 1;
        let (_, rest) = tokens.split_at(place);
        match rest {
            [] => return Ok(column),
            [token, ..] => {
                let begins = token.is_word() && inside;
                column.push(begins)?;
                inside = looked(behind, rest.len()) || begins;
            }
        }
    }
    Ok(column)
}

/// The column in front of a piece.
#[tactic(auto, using(crate::proofs::WordColumns::words_same))]
fn piece_column(
    column: Vec<bool>,
    piece: Piece,
    behind: &[bool],
    tokens: &[Tagged<'_>],
) -> Result<Vec<bool>, AllocError>
    requires { column.items ≡ [] }
    ensures { IfOk result (λ full. full.items ≡ piece_column piece behind.now tokens.now) }
{
    match piece {
        Piece::Word(keyword) => Ok(word_column(column, keyword, behind, tokens)?),
        Piece::Letter(class) => {
            if is_words(class) {
                return Ok(words_column(column, behind, tokens)?);
            }
            Ok(letter_column(column, class, behind, tokens)?)
        }
    }
}

/// Whether the column has an answer yes.
fn has_yes(column: &[bool]) -> bool
    ensures { result ≡ list_any (λ yes. yes) column.now }
{
    column.iter().any(|yes| *yes)
}

/// The column of the pieces, or none if they can fit no last words; those of the pieces behind each
/// piece are added.
fn columns(
    alloc: Global,
    pieces: &[Piece],
    tokens: &[Tagged<'_>],
    told: &mut ColumnStack,
) -> Result<Option<Vec<bool>>, AllocError>
    ensures none { IfOk result (λ found. IfNone found (is_never pieces.now tokens.now ≡ true)) }
    ensures own { IfOk result (λ found. IfSome found (λ column. column.items ≡ first_column pieces.now tokens.now)) }
    ensures added { IfOk result (λ found. OnSome found (told.new ≡ told.old ++ columns_of pieces.now tokens.now)) }
{
    match pieces {
        [] => Ok(Some(end_column(told.empty(alloc, 1)?)?)),
        [piece, after @ ..] => match columns(alloc, after, tokens, told)? {
            None => Ok(None),
            Some(behind) => {
                let empty = told.empty(alloc, tokens.len() + 1)?;
                let column = piece_column(empty, *piece, behind.as_slice(), tokens)?;
                if !has_yes(column.as_slice()) {
                    told.set_free(behind)?;
                    told.set_free(column)?;
                    return Ok(None);
                }
                told.add(behind)?;
                Ok(Some(column))
            }
        },
    }
}

/// Adds the columns of the pieces behind each piece; false where those behind the first can fit no last
/// words.
pub fn columns_behind(
    alloc: Global,
    pieces: &[Piece],
    tokens: &[Tagged<'_>],
    told: &mut ColumnStack,
) -> Result<bool, AllocError>
    ensures none { IfOk result (λ can. can ≡ false → is_never pieces.now tokens.now ≡ true) }
    ensures added { IfOk result (λ can. can ≡ true → told.new ≡ told.old ++ columns_of pieces.now tokens.now) }
{
    match pieces {
        [] => Ok(true),
        [_, after @ ..] => match columns(alloc, after, tokens, told)? {
            None => Ok(false),
            Some(behind) => {
                told.add(behind)?;
                Ok(true)
            }
        },
    }
}
