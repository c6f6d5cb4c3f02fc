//! The article that an object is printed with, and those that may stand before a noun.
ghost use Rattle.std.specs.Prelude.{◌≡◌};
ghost use Rattle.world_meaning.specs.Spelling.{is_article};

use crate::is_spelled;

/// What stands before an object's name where a text asks for an article.
#[derive(Clone, Copy, Debug, PartialEq, Eq, Default)]
pub enum Article {
    /// The name alone: a proper name, the player, a direction.
    #[default]
    None,
    /// `a box`
    A,
    /// `an oak`
    An,
    /// `some sand`
    Some,
}

/// Whether the word is `a`, `an`, `the` or `some`.
#[tactic(auto, unfolding(crate::specs::Spelling::is_article))]
pub fn is_article(word: &[u8]) -> bool
    ensures { result ≡ is_article word.now }
{
    is_spelled(word, b"a")
        || is_spelled(word, b"an")
        || is_spelled(word, b"the")
        || is_spelled(word, b"some")
}
