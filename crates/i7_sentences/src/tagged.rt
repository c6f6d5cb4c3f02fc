//! Tokens with what the forms ask of them, which is found once for each.
ghost use Rattle.std.specs.Prelude.{◌≡◌, IfOk};
ghost use Rattle.i7_sentences.specs.declared.keyword.TheConstants.{RESERVED};
ghost use Rattle.i7_sentences.specs.Keywords.{is_article, is_one_of, is_reserved, is_sign, keyword_of};
ghost use Rattle.i7_sentences.specs.Classes.{is_direction, is_number};
ghost use Rattle.i7_sentences.specs.Words.{direction_named, is_text, is_word, word_of};

use crate::Keyword;
use crate::keyword::{ARTICLES, RESERVED, keyword_of};
use crate::word::{direction_of, is_text, is_word, word_of};
use i7_lexer::PackedToken;
use std::alloc::{AllocError, Global};
use std::marker::Model;
use world_meaning::{Direction, is_literal};

/// A token, seen by contracts as the token alone.
#[derive(Drop)]
pub struct Tagged<'a> {
    token: &'a PackedToken,
    keyword: Option<Keyword>,
    direction: Option<Direction>,
    is_number: bool,
    is_word: bool,
}

impl<'a> Model for Tagged<'a> {
    ghost use Rattle.std.specs.Prelude.{◌≡◌};
    ghost use Rattle.i7_lexer.specs.declared.token.Token.{Token};

    ghost Value = { Token };

    ghost use Rattle.i7_sentences.specs.Tags.{IsTagged};

    ghost view = { λ t. t.token.now };

    ghost invariant = { λ t. IsTagged t.token.now t.keyword t.direction t.is_number t.is_word };
}

impl<'a> Tagged<'a> {
    fn new(token: &'a PackedToken) -> Tagged<'a>
        ensures { result ≡ token.now }
    {
        let word = word_of(token);
        Tagged {
            token,
            keyword: keyword_of(token),
            direction: direction_of(word),
            is_number: is_literal(word),
            is_word: is_word(token),
        }
    }

    /// Whether the token is this word or mark of a form.
    #[tactic(auto, unfolding(crate::specs::Keywords::is_sign))]
    pub fn is_sign(&self, keyword: Keyword) -> bool
        ensures { result ≡ is_sign keyword self.now }
    {
        match self.keyword {
            None => false,
            Some(found) => found == keyword,
        }
    }

    /// The word or mark of a form that the token is, if it is one.
    pub fn keyword(&self) -> Option<Keyword>
        ensures { result ≡ keyword_of self.now }
    {
        self.keyword
    }

    /// The direction that the token names.
    pub fn direction(&self) -> Option<Direction>
        ensures { result ≡ direction_named (word_of self.now) }
    {
        self.direction
    }

    #[tactic(auto, unfolding(crate::specs::Classes::is_direction))]
    pub fn is_direction(&self) -> bool
        ensures { result ≡ is_direction self.now }
    {
        self.direction.is_some()
    }

    /// Whether the token is a literal number.
    #[tactic(auto, unfolding(crate::specs::Classes::is_number))]
    pub fn is_number(&self) -> bool
        ensures { result ≡ is_number self.now }
    {
        self.is_number
    }

    pub fn is_word(&self) -> bool
        ensures { result ≡ is_word self.now }
    {
        self.is_word
    }

    pub fn is_text(&self) -> bool
        ensures { result ≡ is_text self.now }
    {
        is_text(self.token)
    }

    pub fn token(&self) -> &'a PackedToken
        ensures { result.now ≡ self.now }
    {
        self.token
    }

    /// Whether the token is one of these words or marks.
    fn is_one_of(&self, keywords: &[Keyword]) -> bool
        ensures { result ≡ is_one_of keywords.now self.now }
    {
        keywords.iter().any(|keyword| self.is_sign(*keyword))
    }

    /// Whether the token is an article.
    pub fn is_article(&self) -> bool
        ensures { result ≡ is_article self.now }
    {
        self.is_one_of(&ARTICLES)
    }

    /// Whether the token is a reserved word that is no article.
    pub fn is_joining(&self) -> bool
        ensures { result ≡ is_one_of RESERVED self.now }
    {
        self.is_one_of(&RESERVED)
    }

    /// Whether the token may stand in no name of an object.
    pub fn is_reserved(&self) -> bool
        ensures { result ≡ is_reserved self.now }
    {
        self.is_article() || self.is_joining()
    }
}

/// The tokens of a sentence with their tags.
pub fn with_tags<'a>(
    alloc: Global,
    tokens: &'a [PackedToken],
) -> Result<Vec<Tagged<'a>>, AllocError>
    ensures { IfOk result (λ tagged. tagged.items ≡ tokens.now) }
{
    let mut out = Vec::with_capacity(alloc, tokens.len())?;
    let mut rest = tokens;
    while let [token, after @ ..] = rest {
        out.push(Tagged::new(token))?;
        rest = after;
    }
    Ok(out)
}
