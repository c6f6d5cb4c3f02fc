//! The classes of words that a form's letters stand for: each a small automaton over tokens.
ghost use Rattle.std.specs.Prelude.{◌≡◌};
ghost use Rattle.i7_sentences.specs.Automata.{accepts, alone_step, asked_step, body_step, names_step, run_step, side_start, side_step, step};
ghost use Rattle.i7_sentences.specs.Classes.{is_body_mark, is_choice, is_comma, is_degree, is_head_token, is_inner, is_listed_word, is_vertical};

use crate::Keyword;
use crate::tagged::Tagged;
use crate::word::word_of;

/// What a letter stands for.
#[derive(Clone, Copy, PartialEq, Eq)]
pub enum Class {
    /// One or more words, whatever they are.
    Words,
    /// Words that are a name.
    Name,
    /// Names, parted by `,` or `and`.
    Names,
    /// Words that are adjectives, and perhaps a kind.
    What,
    /// Words that are adjectives, parted by `and`.
    Usual,
    /// One article.
    Article,
    /// `above`, `below`, a direction and `of`, `inside from` or `outside from`.
    Side,
    /// One literal number.
    Number,
    /// One text.
    Text,
    /// Texts and `or`.
    Texts,
    /// Words and round brackets, as in a rule's head.
    Head,
    /// `:` or `,` and what stands behind it.
    Body,
    /// `thing`, `visible thing` or `carried thing`.
    Asked,
}

/// How far the words of a letter are read.
#[derive(Clone, Copy)]
pub enum State {
    /// At its first word.
    Start,
    /// Behind a word with which it may end.
    Inside,
    /// Behind a word with which it may not end.
    Between,
    /// Behind another such word: `inside` or `outside`.
    Beside,
}

#[tactic(auto, unfolding(crate::specs::Classes::is_comma))]
pub fn is_comma(token: &Tagged<'_>) -> bool
    ensures { result ≡ is_comma token.now }
{
    token.is_sign(Keyword::Comma)
}

/// Whether the token is a word that may stand in an item of a list, behind its first.
#[tactic(auto, unfolding(crate::specs::Classes::is_listed_word))]
fn is_listed_word(token: &Tagged<'_>) -> bool
    ensures { result ≡ is_listed_word token.now }
{
    token.is_word() && !is_comma(token)
}

#[tactic(auto, unfolding(crate::specs::Classes::is_vertical))]
fn is_vertical(token: &Tagged<'_>) -> bool
    ensures { result ≡ is_vertical token.now }
{
    token.is_sign(Keyword::Above) || token.is_sign(Keyword::Below)
}

#[tactic(auto, unfolding(crate::specs::Classes::is_inner))]
fn is_inner(token: &Tagged<'_>) -> bool
    ensures { result ≡ is_inner token.now }
{
    token.is_sign(Keyword::Inside) || token.is_sign(Keyword::Outside)
}

#[tactic(auto, unfolding(crate::specs::Classes::is_head_token))]
fn is_head_token(token: &Tagged<'_>) -> bool
    ensures { result ≡ is_head_token token.now }
{
    token.is_word() || token.is_sign(Keyword::Open) || token.is_sign(Keyword::Close)
}

/// Whether the token tells how near a thing must be.
#[tactic(auto, unfolding(crate::specs::Classes::is_degree))]
fn is_degree(token: &Tagged<'_>) -> bool
    ensures { result ≡ is_degree token.now }
{
    token.is_sign(Keyword::Visible) || token.is_sign(Keyword::Carried)
}

/// Whether the token is a text, or `or`.
#[tactic(auto, unfolding(crate::specs::Classes::is_choice))]
fn is_choice(token: &Tagged<'_>) -> bool
    ensures { result ≡ is_choice token.now }
{
    token.is_text() || token.is_sign(Keyword::Or)
}

/// The step of a letter of one or more such tokens.
fn run_step(passes: bool) -> Option<State>
    ensures { result ≡ run_step passes }
{
    if passes { Some(State::Inside) } else { None }
}

/// The step of a letter that is one token.
fn alone_step(state: State, passes: bool) -> Option<State>
    ensures { result ≡ alone_step state passes }
{
    match state {
        State::Start => run_step(passes),
        State::Inside | State::Between | State::Beside => None,
    }
}

/// The step of names and what parts them.
#[tactic(auto, unfolding(crate::specs::Automata::names_step))]
pub fn names_step(state: State, token: &Tagged<'_>) -> Option<State>
    ensures { result ≡ names_step state token.now }
{
    match state {
        State::Start | State::Between => run_step(token.is_word()),
        State::Inside => {
            if is_comma(token) {
                Some(State::Between)
            } else {
                run_step(is_listed_word(token))
            }
        }
        State::Beside => None,
    }
}

/// The step at the first word of a side.
fn side_start(token: &Tagged<'_>) -> Option<State>
    ensures { result ≡ side_start token.now }
{
    if is_vertical(token) {
        Some(State::Inside)
    } else if !token.is_direction() {
        None
    } else if is_inner(token) {
        Some(State::Beside)
    } else {
        Some(State::Between)
    }
}

/// The step of the words that lead from a room to one beside it.
#[tactic(auto, unfolding(crate::specs::Automata::side_step))]
pub fn side_step(state: State, token: &Tagged<'_>) -> Option<State>
    ensures { result ≡ side_step state token.now }
{
    match state {
        State::Start => side_start(token),
        State::Inside => None,
        State::Between => run_step(token.is_sign(Keyword::Of)),
        State::Beside => {
            if token.is_sign(Keyword::Of) {
                Some(State::Inside)
            } else {
                run_step(token.is_sign(Keyword::From))
            }
        }
    }
}

/// Whether the token ends a rule's head.
#[tactic(auto, unfolding(crate::specs::Classes::is_body_mark))]
pub fn is_body_mark(token: &Tagged<'_>) -> bool
    ensures { result ≡ is_body_mark token.now }
{
    token.is_sign(Keyword::Colon) || token.is_sign(Keyword::Comma)
}

/// The step of the mark that ends a rule's head, and of what stands behind it.
#[tactic(auto, unfolding(crate::specs::Automata::body_step))]
fn body_step(state: State, token: &Tagged<'_>) -> Option<State>
    ensures { result ≡ body_step state token.now }
{
    match state {
        State::Start => {
            if is_body_mark(token) {
                Some(State::Between)
            } else {
                None
            }
        }
        State::Inside | State::Between => Some(State::Inside),
        State::Beside => None,
    }
}

/// The step of `thing`, perhaps behind how near it must be.
#[tactic(auto, unfolding(crate::specs::Automata::asked_step))]
fn asked_step(state: State, token: &Tagged<'_>) -> Option<State>
    ensures { result ≡ asked_step state token.now }
{
    match state {
        State::Start => {
            if is_degree(token) {
                Some(State::Between)
            } else {
                run_step(token.is_sign(Keyword::Thing))
            }
        }
        State::Between => run_step(token.is_sign(Keyword::Thing)),
        State::Inside | State::Beside => None,
    }
}

impl State {
    /// Whether a letter may end here.
    pub fn accepts(self) -> bool
        ensures { result ≡ accepts self }
    {
        match self {
            State::Inside => true,
            State::Start | State::Between | State::Beside => false,
        }
    }
}

impl Class {
    /// How far a letter is read behind one more token, if it may go on with it.
    pub fn step(self, state: State, token: &Tagged<'_>) -> Option<State>
        ensures { result ≡ step self state token.now }
    {
        match self {
            Class::Words | Class::Name | Class::What | Class::Usual => run_step(token.is_word()),
            Class::Names => names_step(state, token),
            Class::Side => side_step(state, token),
            Class::Number => alone_step(state, token.is_number()),
            Class::Article => alone_step(state, token.is_article()),
            Class::Text => alone_step(state, token.is_text()),
            Class::Texts => run_step(is_choice(token)),
            Class::Head => run_step(is_head_token(token)),
            Class::Body => body_step(state, token),
            Class::Asked => asked_step(state, token),
        }
    }
}
