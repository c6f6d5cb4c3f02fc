//! A noun phrase behind its article.
ghost use Rattle.std.specs.Prelude.{◌≡◌, map};
ghost use Rattle.world_meaning.specs.Reading.{noun_of};
ghost use Rattle.command_parser.specs.Typed.{typed};

use world_meaning::is_article;

/// A noun phrase without the one article in front.
pub(crate) fn noun_of<'a, 'b>(phrase: &'b [&'a [u8]]) -> &'b [&'a [u8]]
    ensures { map (λ word. word.now) result.now ≡ noun_of (typed phrase.now) }
{
    match phrase {
        [first, rest @ ..] if is_article(first) => rest,
        _ => phrase,
    }
}
