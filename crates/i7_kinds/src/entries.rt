//! The names and articles of objects, by number: the player, the directions, and the author's.
ghost use Rattle.std.specs.Prelude.{◌≡◌, ◌++◌, IfOk, OnOk, map};
ghost use Rattle.world_meaning.specs.Directions.{all_directions};
ghost use Rattle.i7_kinds.specs.Tales.{article_of, author_entry, direction_entry, entries_of, is_vowel, plain_article, player_entry};
ghost use Rattle.i7_claims.specs.Views.{mention_of, mentions_of};

use crate::lent_text::LentText;
use i7_claims::Mention;
use i7_sentences::NameArticle;
use std::alloc::{AllocError, Global};
use world_meaning::{Article, Direction};

/// An object's name as it is printed, and its article.
#[derive(Drop)]
pub struct Entry<'a> {
    pub name: LentText<'a>,
    pub article: Article,
}

fn is_vowel(byte: u8) -> bool
    ensures { result ≡ is_vowel byte }
{
    matches!(
        byte,
        b'a' | b'e' | b'i' | b'o' | b'u' | b'A' | b'E' | b'I' | b'O' | b'U'
    )
}

/// `an` stands before a vowel.
fn plain_article(name: &[u8]) -> Article
    ensures { result ≡ plain_article name.now }
{
    match name {
        [first, ..] if is_vowel(*first) => Article::An,
        _ => Article::A,
    }
}

/// The article that an object is printed with, by that of its first mention.
fn article_of(article: NameArticle, name: &[u8]) -> Article
    ensures { result ≡ article_of article name.now }
{
    match article {
        NameArticle::None => Article::None,
        NameArticle::Plain => plain_article(name),
        NameArticle::Some => Article::Some,
    }
}

fn player_entry<'a>() -> Entry<'a>
    ensures { result ≡ player_entry }
{
    Entry {
        name: LentText::new(b"yourself"),
        article: Article::None,
    }
}

fn direction_entry<'a>(direction: Direction) -> Entry<'a>
    ensures { result ≡ direction_entry direction }
{
    Entry {
        name: LentText::new(direction.name()),
        article: Article::None,
    }
}

fn author_entry<'a>(mention: &Mention<'a>) -> Entry<'a>
    ensures { result ≡ author_entry (mention_of mention.now) }
{
    let name = mention.name.text.as_slice();
    Entry {
        name: LentText::new(name),
        article: article_of(mention.name.article, name),
    }
}

fn push_directions(entries: &mut Vec<Entry<'_>>) -> Result<(), AllocError>
    ensures { OnOk result (entries.new.items ≡ entries.old.items ++ map direction_entry all_directions) }
{
    let mut rest: &[Direction] = &Direction::ALL;
    while let [direction, after @ ..] = rest {
        entries.push(direction_entry(*direction))?;
        rest = after;
    }
    Ok(())
}

fn push_authors<'a>(
    entries: &mut Vec<Entry<'a>>,
    mentions: &[Mention<'a>],
) -> Result<(), AllocError>
    ensures { OnOk result (entries.new.items ≡ entries.old.items ++ map author_entry (mentions_of mentions.now)) }
{
    let mut rest = mentions;
    while let [mention, after @ ..] = rest {
        entries.push(author_entry(mention))?;
        rest = after;
    }
    Ok(())
}

/// The names and articles of the objects, by number.
#[tactic(auto, unfolding(crate::specs::Tales::entries_of))]
pub fn entries_of<'a>(alloc: Global, mentions: &[Mention<'a>]) -> Result<Vec<Entry<'a>>, AllocError>
    ensures { IfOk result (λ entries. entries.items ≡ entries_of (mentions_of mentions.now)) }
{
    let mut entries = Vec::new(alloc);
    entries.push(player_entry())?;
    push_directions(&mut entries)?;
    push_authors(&mut entries, mentions)?;
    Ok(entries)
}
