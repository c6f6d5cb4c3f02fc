//! Names of objects as they are told: with an article or without, alone or in a list.
ghost use Rattle.std.specs.Prelude.{◌≡◌, ◌++◌, Err, OnOk, OnErr};
ghost use Rattle.std.specs.Fmt.{signed_decimal};
ghost use Rattle.play_meaning.specs.Saying.{article_of, joint, listed, listed_on, name_in, named, value_name};
ghost use Rattle.play_meaning.specs.Values.{value_at};
ghost use Rattle.play_meaning.specs.declared.naming.Naming.TheVariants.{CapitalDefinite, CapitalIndefinite, Definite, Indefinite};
ghost use Rattle.world_meaning.specs.declared.session.Abandon.TheVariants.{Memory};
ghost use Rattle.story_code.specs.Longer.{IsLonger};

use play_meaning::{Ground, Naming};
use std::alloc::Global;
use world_meaning::{Abandon, Article, ObjNo};

/// Adds bytes to what is said.
#[tactic(auto, using(crate::proofs::Longer::longer_rules))]
pub fn say(text: &mut Vec<u8>, bytes: &[u8]) -> Result<(), Abandon>
    ensures said { OnOk result (text.new.items ≡ text.old.items ++ bytes.now) }
    ensures refused { OnErr result (result ≡ Err Memory) }
    ensures longer { IsLonger text.old.items text.new.items }
{
    match text.extend_from_slice(bytes) {
        Ok(()) => Ok(()),
        Err(_) => Err(Abandon::Memory),
    }
}

/// Adds a number in decimal.
#[tactic(auto, using(crate::proofs::Longer::longer_rules))]
pub fn say_figure(alloc: Global, text: &mut Vec<u8>, number: i32) -> Result<(), Abandon>
    ensures said { OnOk result (text.new.items ≡ text.old.items ++ signed_decimal number) }
    ensures refused { OnErr result (result ≡ Err Memory) }
    ensures longer { IsLonger text.old.items text.new.items }
{
    match number.to_string(alloc) {
        Ok(figure) => say(text, figure.as_bytes()),
        Err(_) => Err(Abandon::Memory),
    }
}

/// `a`, `an`, `some` and a blank, or nothing.
fn indefinite(article: Article) -> &'static [u8]
    ensures { result.now ≡ article_of Indefinite article }
{
    match article {
        Article::None => b"",
        Article::A => b"a ",
        Article::An => b"an ",
        Article::Some => b"some ",
    }
}

/// `A`, `An`, `Some` and a blank, or nothing.
fn capital_indefinite(article: Article) -> &'static [u8]
    ensures { result.now ≡ article_of CapitalIndefinite article }
{
    match article {
        Article::None => b"",
        Article::A => b"A ",
        Article::An => b"An ",
        Article::Some => b"Some ",
    }
}

/// `the` and a blank, or nothing.
fn definite(article: Article) -> &'static [u8]
    ensures { result.now ≡ article_of Definite article }
{
    match article {
        Article::None => b"",
        Article::A | Article::An | Article::Some => b"the ",
    }
}

/// `The` and a blank, or nothing.
fn capital_definite(article: Article) -> &'static [u8]
    ensures { result.now ≡ article_of CapitalDefinite article }
{
    match article {
        Article::None => b"",
        Article::A | Article::An | Article::Some => b"The ",
    }
}

/// What stands in front of a name.
fn article_of(naming: Naming, article: Article) -> &'static [u8]
    ensures { result.now ≡ article_of naming article }
{
    match naming {
        Naming::Plain => b"",
        Naming::Definite => definite(article),
        Naming::CapitalDefinite => capital_definite(article),
        Naming::Indefinite => indefinite(article),
        Naming::CapitalIndefinite => capital_indefinite(article),
    }
}

/// Adds an object's name.
#[tactic(auto, using(crate::proofs::Longer::longer_rules))]
fn say_named<G: Ground>(
    ground: &G,
    text: &mut Vec<u8>,
    naming: Naming,
    object: ObjNo,
) -> Result<(), Abandon>
    ensures said { OnOk result (text.new.items ≡ text.old.items ++ named (G.fixed ground.now).setting naming object) }
    ensures refused { OnErr result (result ≡ Err Memory) }
    ensures longer { IsLonger text.old.items text.new.items }
{
    say(text, article_of(naming, ground.article(object)))?;
    say(text, ground.name(object))?;
    Ok(())
}

/// Adds an object's name, or that it is nothing.
#[tactic(auto, using(crate::proofs::Longer::longer_rules))]
pub fn say_name<G: Ground>(
    ground: &G,
    text: &mut Vec<u8>,
    naming: Naming,
    object: Option<ObjNo>,
) -> Result<(), Abandon>
    ensures said { OnOk result (text.new.items ≡ text.old.items ++ name_in (G.fixed ground.now).setting naming object) }
    ensures refused { OnErr result (result ≡ Err Memory) }
    ensures longer { IsLonger text.old.items text.new.items }
{
    match object {
        Some(object) => say_named(ground, text, naming, object),
        None => say(text, b"nothing"),
    }
}

/// An object's value of a kind of value; none of nothing.
fn value_at<G: Ground>(ground: &G, kind: u8, object: Option<ObjNo>) -> Option<u8>
    ensures { result ≡ value_at (G.fixed ground.now).setting (G.world ground.now) kind object }
{
    match object {
        Some(object) => ground.value(object, kind),
        None => None,
    }
}

/// Adds the name of an object's value of a kind of value, or that it is nothing.
#[tactic(auto, using(crate::proofs::Longer::longer_rules))]
pub fn say_value<G: Ground>(
    ground: &G,
    text: &mut Vec<u8>,
    kind: u8,
    object: Option<ObjNo>,
) -> Result<(), Abandon>
    ensures said { OnOk result (text.new.items ≡ text.old.items ++ value_name (G.fixed ground.now).setting kind (value_at (G.fixed ground.now).setting (G.world ground.now) kind object)) }
    ensures refused { OnErr result (result ≡ Err Memory) }
    ensures longer { IsLonger text.old.items text.new.items }
{
    match value_at(ground, kind, object) {
        Some(value) => say(text, ground.value_name(kind, value)),
        None => say(text, b"nothing"),
    }
}

/// What joins an object of a list to those in front of it, by those behind it.
fn joint(behind: &[ObjNo]) -> &'static [u8]
    ensures { result.now ≡ joint behind.now }
{
    match behind {
        [] => b" and ",
        [_, ..] => b", ",
    }
}

/// Adds the objects of a list behind its first.
#[tactic(auto, using(crate::proofs::Longer::longer_rules))]
fn say_others<G: Ground>(
    ground: &G,
    text: &mut Vec<u8>,
    naming: Naming,
    objects: &[ObjNo],
) -> Result<(), Abandon>
    ensures said { OnOk result (text.new.items ≡ text.old.items ++ listed_on (G.fixed ground.now).setting naming objects.now) }
    ensures refused { OnErr result (result ≡ Err Memory) }
    ensures longer { IsLonger text.old.items text.new.items }
{
    let mut rest = objects;
    while let [object, behind @ ..] = rest {
        say(text, joint(behind))?;
        say_named(ground, text, naming, *object)?;
        rest = behind;
    }
    Ok(())
}

/// Adds objects as a list, or that they are nothing.
#[tactic(auto, using(crate::proofs::Longer::longer_rules))]
pub fn say_listed<G: Ground>(
    ground: &G,
    text: &mut Vec<u8>,
    naming: Naming,
    objects: &[ObjNo],
) -> Result<(), Abandon>
    ensures said { OnOk result (text.new.items ≡ text.old.items ++ listed (G.fixed ground.now).setting naming objects.now) }
    ensures refused { OnErr result (result ≡ Err Memory) }
    ensures longer { IsLonger text.old.items text.new.items }
{
    match objects {
        [] => say(text, b"nothing"),
        [first, others @ ..] => {
            say_named(ground, text, naming, *first)?;
            say_others(ground, text, naming, others)?;
            Ok(())
        }
    }
}
