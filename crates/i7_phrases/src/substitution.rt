//! What substitutions of a text say (*Writing with Inform*, chapter 5): `[the score]`, `[The noun]`, `[a list of open
//! containers]`, `[description of the box]`, `[colour of the ball]`.
ghost use Rattle.std.specs.Prelude.{◌≡◌, ◌≤◌, codes, length, option_map, IfOk};
ghost use Rattle.i7_conditions.specs.Descriptions.{found_described};
ghost use Rattle.i7_conditions.specs.Joining.{found_number};
ghost use Rattle.i7_conditions.specs.Objects.{found_meant};
ghost use Rattle.i7_conditions.specs.Readings.{IsFoundAs, one};
ghost use Rattle.i7_conditions.specs.Scopes.{scope_of};
ghost use Rattle.i7_conditions.specs.Values.{kind_and_object};
ghost use Rattle.i7_phrases.specs.SubstitutionForms.{description_by, found_piece, from_description, from_listing, from_name, listing_said, name_said, substitution_said, value_name_by};
ghost use Rattle.i7_phrases.specs.Substitutions.{DescriptionOf as IsDescriptionOf, Figure as IsFigure, Listing as IsListing, Name as IsName, Substitutes, ValueName as IsValueName, begins_with_article, behind_of, is_capital, listed_by, listing_in, naming_of, piece_is_over, telling_in, told_by};

use i7_conditions::{Found, Scope, description_said, kind_and_object, number_said, object_said};
use play_meaning::Naming;
use play_meaning::tree::{Description, Number, Piece, Referent};
use std::alloc::{AllocError, Global};
use world_meaning::{TextBytes, is_article, is_spelled};

/// Whether the first letter of a word is a capital.
fn is_capital(word: &TextBytes) -> bool
    ensures { result ≡ is_capital word.now }
{
    match word.as_slice() {
        [] => false,
        [first, ..] => first.is_ascii_uppercase(),
    }
}

/// How an object is told of behind this word, if it is an article that tells it.
#[tactic(auto, unfolding(crate::specs::Substitutions::naming_of))]
fn naming_of(word: &TextBytes) -> Option<Naming>
    ensures { result ≡ naming_of word.now }
{
    let bytes = word.as_slice();
    if is_spelled(bytes, b"the") {
        Some(if is_capital(word) {
            Naming::CapitalDefinite
        } else {
            Naming::Definite
        })
    } else if is_spelled(bytes, b"a") || is_spelled(bytes, b"an") {
        Some(if is_capital(word) {
            Naming::CapitalIndefinite
        } else {
            Naming::Indefinite
        })
    } else {
        None
    }
}

/// Whether an article stands in front of the other words.
fn begins_with_article(words: &[TextBytes]) -> bool
    ensures { result ≡ begins_with_article words.now }
{
    match words {
        [] => false,
        [word, ..] => is_article(word.as_slice()),
    }
}

/// An object told of so by the words of its name, in front of which no other article stands.
fn told_by(naming: Naming, words: &[TextBytes]) -> Option<(Naming, &[TextBytes])>
    ensures { option_map (λ t. (t.0, t.1.now)) result ≡ told_by naming words.now }
{
    if begins_with_article(words) {
        None
    } else {
        Some((naming, words))
    }
}

/// How an object is told of, and the words that name it.
fn telling_in(words: &[TextBytes]) -> Option<(Naming, &[TextBytes])>
    ensures { option_map (λ t. (t.0, t.1.now)) result ≡ telling_in words.now }
{
    match words {
        [] => told_by(Naming::Plain, words),
        [word, rest @ ..] => match naming_of(word) {
            None => told_by(Naming::Plain, words),
            Some(naming) => told_by(naming, rest),
        },
    }
}

/// The words behind this name and `of`.
fn behind_of<'a>(name: &[u8], words: &'a [TextBytes]) -> Option<&'a [TextBytes]>
    ensures { option_map (λ rest. rest.now) result ≡ behind_of name.now words.now }
{
    match words {
        [first, second, rest @ ..] => {
            if is_spelled(first.as_slice(), name) && is_spelled(second.as_slice(), b"of") {
                Some(rest)
            } else {
                None
            }
        }
        _ => None,
    }
}

/// Objects listed so, by the words that describe them.
fn listed_by(naming: Naming, words: &[TextBytes]) -> Option<(Naming, &[TextBytes])>
    ensures { option_map (λ t. (t.0, t.1.now)) result ≡ listed_by naming (behind_of (codes "list") words.now) }
{
    match behind_of(b"list", words) {
        None => None,
        Some(rest) => Some((naming, rest)),
    }
}

/// How objects are told of in a list, and the words that describe them.
fn listing_in(words: &[TextBytes]) -> Option<(Naming, &[TextBytes])>
    ensures { option_map (λ t. (t.0, t.1.now)) result ≡ listing_in words.now }
{
    match words {
        [] => None,
        [word, rest @ ..] => {
            if is_spelled(word.as_slice(), b"a") {
                listed_by(Naming::Indefinite, rest)
            } else if is_spelled(word.as_slice(), b"the") {
                listed_by(Naming::Definite, rest)
            } else {
                listed_by(Naming::Plain, words)
            }
        }
    }
}

/// A number in digits.
fn figure(number: Found<Number>) -> Found<Piece>
    ensures { found_piece result ≡ one IsFigure (found_number number) }
{
    match number {
        Found::Read(number) => Found::Read(Piece::Figure(number)),
        Found::TooMany => Found::TooMany,
        Found::Unread => Found::Unread,
    }
}

/// An object's name.
fn name(naming: Naming, object: Found<Referent>) -> Found<Piece>
    ensures { found_piece result ≡ one (IsName naming) (found_meant object) }
{
    match object {
        Found::Read(object) => Found::Read(Piece::Name(naming, object)),
        Found::TooMany => Found::TooMany,
        Found::Unread => Found::Unread,
    }
}

/// The names of the objects that are described.
fn listing(naming: Naming, those: Found<Description>) -> Found<Piece>
    ensures { found_piece result ≡ one (IsListing naming) (found_described those) }
{
    match those {
        Found::Read(those) => Found::Read(Piece::Listing(naming, those)),
        Found::TooMany => Found::TooMany,
        Found::Unread => Found::Unread,
    }
}

/// An object's description.
fn description(object: Found<Referent>) -> Found<Piece>
    ensures { found_piece result ≡ one IsDescriptionOf (found_meant object) }
{
    match object {
        Found::Read(object) => Found::Read(Piece::DescriptionOf(object)),
        Found::TooMany => Found::TooMany,
        Found::Unread => Found::Unread,
    }
}

/// The name of an object's value.
fn value_name(kind: u8, object: Found<Referent>) -> Found<Piece>
    ensures { found_piece result ≡ one (IsValueName kind) (found_meant object) }
{
    match object {
        Found::Read(object) => Found::Read(Piece::ValueName(kind, object)),
        Found::TooMany => Found::TooMany,
        Found::Unread => Found::Unread,
    }
}

/// `O`, `the O`, `The O`, `a O` or `A O`.
fn name_said(
    alloc: Global,
    scope: &Scope<'_>,
    words: &[TextBytes],
) -> Result<Found<Piece>, AllocError>
    requires few { length (scope_of scope.now).repeats ≤ 255 }
    ensures { IfOk result (λ found. found_piece found ≡ name_said (scope_of scope.now) (telling_in words.now)) }
{
    match telling_in(words) {
        None => Ok(Found::Unread),
        Some((naming, words)) => {
            let object = object_said(alloc, scope, words)?;
            Ok(name(naming, object))
        }
    }
}

/// `list of D`, `a list of D` or `the list of D`.
fn listing_said(
    alloc: Global,
    scope: &Scope<'_>,
    words: &[TextBytes],
) -> Result<Found<Piece>, AllocError>
    requires few { length (scope_of scope.now).repeats ≤ 255 }
    ensures { IfOk result (λ found. found_piece found ≡ listing_said (scope_of scope.now) (listing_in words.now)) }
{
    match listing_in(words) {
        None => Ok(Found::Unread),
        Some((naming, words)) => {
            let those = description_said(alloc, scope, words)?;
            Ok(listing(naming, those))
        }
    }
}

/// `description of O`
fn description_by(
    alloc: Global,
    scope: &Scope<'_>,
    words: &[TextBytes],
) -> Result<Found<Piece>, AllocError>
    requires few { length (scope_of scope.now).repeats ≤ 255 }
    ensures { IfOk result (λ found. found_piece found ≡ description_by (scope_of scope.now) (behind_of (codes "description") words.now)) }
{
    match behind_of(b"description", words) {
        None => Ok(Found::Unread),
        Some(rest) => {
            let object = object_said(alloc, scope, rest)?;
            Ok(description(object))
        }
    }
}

/// `KIND of O` or `the KIND of O`.
fn value_name_by(
    alloc: Global,
    scope: &Scope<'_>,
    words: &[TextBytes],
) -> Result<Found<Piece>, AllocError>
    requires few { length (scope_of scope.now).repeats ≤ 255 }
    ensures { IfOk result (λ found. found_piece found ≡ value_name_by (scope_of scope.now) (kind_and_object (scope_of scope.now) words.now)) }
{
    match kind_and_object(alloc, scope, words)? {
        None => Ok(Found::Unread),
        Some((kind, rest)) => {
            let object = object_said(alloc, scope, rest)?;
            Ok(value_name(kind, object))
        }
    }
}

/// An object's description, or else the name of its value.
fn from_description(
    alloc: Global,
    scope: &Scope<'_>,
    words: &[TextBytes],
) -> Result<Found<Piece>, AllocError>
    requires few { length (scope_of scope.now).repeats ≤ 255 }
    ensures { IfOk result (λ found. found_piece found ≡ from_description (scope_of scope.now) words.now) }
{
    match description_by(alloc, scope, words)? {
        Found::Unread => Ok(value_name_by(alloc, scope, words)?),
        found => Ok(found),
    }
}

/// A list, or else an object's description or the name of its value.
fn from_listing(
    alloc: Global,
    scope: &Scope<'_>,
    words: &[TextBytes],
) -> Result<Found<Piece>, AllocError>
    requires few { length (scope_of scope.now).repeats ≤ 255 }
    ensures { IfOk result (λ found. found_piece found ≡ from_listing (scope_of scope.now) words.now) }
{
    match listing_said(alloc, scope, words)? {
        Found::Unread => Ok(from_description(alloc, scope, words)?),
        found => Ok(found),
    }
}

/// An object's name, or else what comes behind it in the list of forms.
fn from_name(
    alloc: Global,
    scope: &Scope<'_>,
    words: &[TextBytes],
) -> Result<Found<Piece>, AllocError>
    requires few { length (scope_of scope.now).repeats ≤ 255 }
    ensures { IfOk result (λ found. found_piece found ≡ from_name (scope_of scope.now) words.now) }
{
    match name_said(alloc, scope, words)? {
        Found::Unread => Ok(from_listing(alloc, scope, words)?),
        found => Ok(found),
    }
}

/// What the words of a substitution say: the first of the forms that they have.
#[tactic(auto, unfolding(crate::specs::SubstitutionForms::substitution_said))]
fn substitution_said(
    alloc: Global,
    scope: &Scope<'_>,
    words: &[TextBytes],
) -> Result<Found<Piece>, AllocError>
    requires few { length (scope_of scope.now).repeats ≤ 255 }
    ensures { IfOk result (λ found. found_piece found ≡ substitution_said (scope_of scope.now) words.now) }
{
    let number = number_said(alloc, scope, words)?;
    match figure(number) {
        Found::Unread => Ok(from_name(alloc, scope, words)?),
        found => Ok(found),
    }
}

/// What the words of a substitution say; a piece with an object or a description beyond the limits is too many.
#[tactic(auto, using(crate::proofs::Substituted::substitutions_found))]
pub fn substitution_of(
    alloc: Global,
    scope: &Scope<'_>,
    words: &[TextBytes],
) -> Result<Found<Piece>, AllocError>
    requires few { length (scope_of scope.now).repeats ≤ 255 }
    ensures { IfOk result (λ found. IsFoundAs (Substitutes (scope_of scope.now) words.now) piece_is_over (found_piece found)) }
{
    substitution_said(alloc, scope, words)
}
