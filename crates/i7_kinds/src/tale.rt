//! The tale of a source's sentences, or the refusal that stands.
ghost use Rattle.std.specs.Prelude.{◌≡◌, ◌⊎◌, ◌+◌, length, Ok, Err, IfErr, IfOk};
ghost use Rattle.world_meaning.specs.Faults.{out_of_memory};
ghost use Rattle.i7_kinds.specs.Bounds.{AreSmallPlaces, AreWithin};
ghost use Rattle.i7_kinds.specs.Demands.{descriptions_of};
ghost use Rattle.i7_kinds.specs.Described.{descriptions_in};
ghost use Rattle.i7_kinds.specs.KindClaims.{declared_by, kind_names, parents_of};
ghost use Rattle.i7_kinds.specs.Knowns.{knowns_of, off_path as off_path_of};
ghost use Rattle.i7_kinds.specs.Places.{places_by};
ghost use Rattle.i7_kinds.specs.StatedWays.{stated};
ghost use Rattle.i7_kinds.specs.Suits.{first_room, with_player};
ghost use Rattle.i7_kinds.specs.Tales.{HasLine, entries_of, frame_refusal, judged, judged_by, long_by, long_in, long_of, long_said, long_with, made_of, no_room, objects_of, refusal_at, refusal_of, said_by, said_in, scope_of, tale_in, tale_made, tale_said};
ghost use Rattle.i7_kinds.specs.Ready.{IsReady};
ghost use Rattle.i7_claims.specs.Standings.{built_in_namings};
ghost use Rattle.i7_claims.specs.Statements.{named_by};
ghost use Rattle.i7_claims.specs.Views.{mentions_of, names_of};

use crate::actions::{actions_said, with_actions};
use crate::author_kinds::{kind_nos, parents_of};
use crate::declaring::declared_by;
use crate::descriptions::Descriptions;
use crate::doors::doors_of;
use crate::faults::{Faults, faults_of};
use crate::grants::givens_of;
use crate::knowns::{Known, known_by};
use crate::limits::{longer_name, name_too_long, object_too_many, text_too_long};
use crate::making::{kinds_of, places_in};
use crate::objects::{Makings, objects_of};
use crate::places::places_by;
use crate::scope::Scope;
use crate::suits::{first_room, put_player};
use crate::values::{Bearer, values_by};
use crate::ways::Ways;
use i7_claims::{
    Claim, Claimed, Mention, Names, Naming, NumberedSentence, Sort, earlier, kind_names, names_as,
    property_names, statements_in,
};
use i7_sentences::Sentence;
use object_words::Strings;
use std::alloc::{AllocError, Global};
use world_meaning::{Declared, Fault, FaultCode, Listed, MOST_BYTES, Object, Place, Tale};

/// The tale that sentences mean, and the lowest line at which they have a name or a description that is too long: C12, but
/// behind what their rules and commands are refused for, which have their own.
#[derive(Drop)]
pub struct TaleSaid {
    pub tale: Tale,
    pub long_line: Option<u32>,
}

/// The refusal at a line, if there is one.
fn refusal_at(code: FaultCode, line: Option<u32>) -> Option<Fault>
    ensures { result ≡ refusal_at code line }
{
    match line {
        Some(line) => Some(Fault { code, line }),
        None => None,
    }
}

/// A source without a room is refused at line 1.
fn no_room(room: Option<usize>) -> Option<u32>
    ensures { result ≡ no_room room }
{
    match room {
        None => Some(1),
        Some(_) => None,
    }
}

/// What sentences may not say together: a name or a description twice, a kind that isn't there, a cycle, a wrong
/// kind, a second place, a name too many, no room, a kind of value without values; each is looked for in all of them before the next.
#[tactic(auto, unfolding(crate::specs::Tales::frame_refusal))]
fn frame_refusal(faults: Faults, mentions: &[Mention<'_>], room: Option<usize>) -> Option<Fault>
    ensures { result ≡ frame_refusal faults (mentions_of mentions.now) room }
{
    if let Some(fault) = refusal_at(FaultCode::Twice, faults.twice) {
        return Some(fault);
    }
    if let Some(fault) = refusal_at(FaultCode::UnknownName, faults.unknown) {
        return Some(fault);
    }
    if let Some(fault) = refusal_at(FaultCode::Cycle, faults.cycle) {
        return Some(fault);
    }
    if let Some(fault) = refusal_at(FaultCode::WrongKind, faults.wrong) {
        return Some(fault);
    }
    if let Some(fault) = refusal_at(FaultCode::TwoPlaces, faults.second) {
        return Some(fault);
    }
    let too_many = earlier(object_too_many(mentions), faults.too_many);
    if let Some(fault) = refusal_at(FaultCode::TooMany, too_many) {
        return Some(fault);
    }
    if let Some(fault) = refusal_at(FaultCode::NoRoom, no_room(room)) {
        return Some(fault);
    }
    refusal_at(FaultCode::NoValues, faults.unlisted)
}

/// The lowest line of a name or a text that is too long.
#[tactic(auto, unfolding(crate::specs::Tales::long_in))]
fn long_in(
    alloc: Global,
    claims: &[Claim],
    mentions: &[Mention<'_>],
    descriptions: &Descriptions<'_>,
) -> Result<Option<u32>, AllocError>
    ensures { IfOk result (λ line. line ≡ long_in claims.now (descriptions_in descriptions.now) (mentions_of mentions.now)) }
{
    let name = name_too_long(alloc, mentions)?;
    let text = text_too_long(descriptions.all());
    let other = longer_name(MOST_BYTES, claims);
    Ok(earlier(name, earlier(text, other)))
}

/// The refusal that stands, if there is one.
fn refusal_of(
    alloc: Global,
    scope: &Scope<'_>,
    knowns: &[Known],
    off_path: Option<u32>,
    claims: &[Claim],
    mentions: &[Mention<'_>],
    descriptions: &Descriptions<'_>,
    ways: &Ways<'_>,
) -> Result<Option<Fault>, AllocError>
    requires off { off_path ≡ off_path_of scope.now claims.now }
    requires described { descriptions_in descriptions.now ≡ descriptions_of scope.now.parents knowns.now (stated ways.now) }
    ensures { IfOk result (λ refusal. refusal ≡ refusal_of scope.now knowns.now claims.now (stated ways.now) (mentions_of mentions.now)) }
{
    let faults = faults_of(alloc, scope, knowns, off_path, claims, descriptions, ways)?;
    let room = first_room(scope.parents(), knowns);
    Ok(frame_refusal(faults, mentions, room))
}

/// Where each object is, the player in the first room where no sentence says another place.
fn places_of(
    alloc: Global,
    scope: &Scope<'_>,
    knowns: &[Known],
    claims: &[Claim],
) -> Result<Vec<Option<Place>>, AllocError>
    requires { AreSmallPlaces (with_player (places_by scope.now.objects claims.now) (first_room scope.now.parents knowns.now)) }
    ensures { IfOk result (λ places. places.items ≡ with_player (places_by scope.now.objects claims.now) (first_room scope.now.parents knowns.now)) }
{
    let mut spots = places_by(alloc, scope, claims)?;
    put_player(spots.as_mut_slice(), first_room(scope.parents(), knowns));
    places_in(alloc, spots.as_slice())
}

/// The objects of the tale.
fn objects_meant(
    alloc: Global,
    scope: &Scope<'_>,
    knowns: &[Known],
    claims: &[Claim],
    mentions: &[Mention<'_>],
    descriptions: &Descriptions<'_>,
    ways: &Ways<'_>,
    declared: &Declared,
) -> Result<Listed<Object>, AllocError>
    requires ready { IsReady scope.now knowns.now claims.now (stated ways.now) }
    requires described { descriptions_in descriptions.now ≡ descriptions_of scope.now.parents knowns.now (stated ways.now) }
    requires declared { declared.now ≡ declared_by claims.now }
    ensures { IfOk result (λ objects. objects ≡ objects_of (made_of scope.now knowns.now claims.now (stated ways.now)) 0 (entries_of (mentions_of mentions.now))) }
{
    let parents = kind_nos(alloc, scope.parents())?;
    let kinds = kinds_of(alloc, knowns)?;
    let places = places_of(alloc, scope, knowns, claims)?;
    let values = values_by(alloc, Bearer::Objects, scope, claims)?;
    let usuals = values_by(alloc, Bearer::Kinds, scope, claims)?;
    let makings = Makings {
        parents: parents.as_slice(),
        kinds: kinds.as_slice(),
        places: places.as_slice(),
        flags: declared.flags.as_slice(),
        numbers: declared.numbers.as_slice(),
        value_kinds: declared.values.as_slice(),
        values: &values,
        usuals: &usuals,
        descriptions,
        ways,
    };
    objects_of(alloc, mentions, &makings)
}

/// The tale of claims and statements that no refusal stands against.
fn tale_made(
    alloc: Global,
    scope: &Scope<'_>,
    knowns: &[Known],
    claims: &[Claim],
    mentions: &[Mention<'_>],
    descriptions: &Descriptions<'_>,
    ways: &Ways<'_>,
) -> Result<Tale, AllocError>
    requires ready { IsReady scope.now knowns.now claims.now (stated ways.now) }
    requires scope { scope.now ≡ scope_of claims.now scope.now.objects }
    requires described { descriptions_in descriptions.now ≡ descriptions_of scope.now.parents knowns.now (stated ways.now) }
    ensures { IfOk result (λ tale. tale ≡ tale_made scope.now knowns.now claims.now (stated ways.now) (mentions_of mentions.now)) }
{
    let declared = declared_by(alloc, scope.kinds(), claims)?;
    let objects = objects_meant(
        alloc,
        scope,
        knowns,
        claims,
        mentions,
        descriptions,
        ways,
        &declared,
    )?;
    Ok(Tale { declared, objects })
}

/// The tale of what is known, described and stated, or the refusal that stands.
fn judged_by(
    alloc: Global,
    scope: &Scope<'_>,
    knowns: &[Known],
    off_path: Option<u32>,
    claims: &[Claim],
    mentions: &[Mention<'_>],
    descriptions: &Descriptions<'_>,
    ways: &Ways<'_>,
) -> Result<Result<TaleSaid, Fault>, AllocError>
    requires knowns { knowns.now ≡ knowns_of scope.now claims.now }
    requires off { off_path ≡ off_path_of scope.now claims.now }
    requires described { descriptions_in descriptions.now ≡ descriptions_of scope.now.parents knowns.now (stated ways.now) }
    requires within { AreWithin (length scope.now.objects) (stated ways.now) }
    requires counted { length scope.now.objects ≡ 13 + length (mentions_of mentions.now) }
    requires scope { scope.now ≡ scope_of claims.now scope.now.objects }
    ensures tale { IfOk result (λ said. tale_in said ≡ judged_by scope.now knowns.now claims.now (stated ways.now) (mentions_of mentions.now)) }
    ensures line { IfOk result (λ said. HasLine (long_in claims.now (descriptions_in descriptions.now) (mentions_of mentions.now)) said) }
{
    let refused = refusal_of(
        alloc,
        scope,
        knowns,
        off_path,
        claims,
        mentions,
        descriptions,
        ways,
    )?;
    if let Some(fault) = refused {
        return Ok(Err(fault));
    }
    let long_line = long_in(alloc, claims, mentions, descriptions)?;
    let tale = tale_made(alloc, scope, knowns, claims, mentions, descriptions, ways)?;
    Ok(Ok(TaleSaid { tale, long_line }))
}

/// The tale of these claims and statements, or the refusal that stands.
fn judged(
    alloc: Global,
    scope: &Scope<'_>,
    mentions: &[Mention<'_>],
    claims: &[Claim],
    statements: &[NumberedSentence],
) -> Result<Result<TaleSaid, Fault>, AllocError>
    requires within { AreWithin (length scope.now.objects) statements.now }
    requires counted { length scope.now.objects ≡ 13 + length (mentions_of mentions.now) }
    requires scope { scope.now ≡ scope_of claims.now scope.now.objects }
    ensures tale { IfOk result (λ said. tale_in said ≡ judged scope.now claims.now statements.now (mentions_of mentions.now)) }
    ensures line { IfOk result (λ said. HasLine (long_of scope.now claims.now statements.now (mentions_of mentions.now)) said) }
{
    let ways = Ways::new(alloc, statements)?;
    let all = known_by(alloc, scope, claims)?;
    let (knowns, off) = (all.knowns.as_slice(), all.off_path);
    let texts = Descriptions::new(alloc, scope.parents(), knowns, statements)?;
    judged_by(alloc, scope, knowns, off, claims, mentions, &texts, &ways)
}

/// What the sentences mean, where the kinds have these names and these kinds above them.
fn said_in(
    alloc: Global,
    kinds: &Strings,
    parents: &[Option<usize>],
    built_in: &[Naming],
    claims: &[Claim],
    names: &Names<'_>,
    sentences: &[Sentence],
) -> Result<Result<TaleSaid, Fault>, AllocError>
    requires built_in { built_in.now ≡ built_in_namings }
    requires named { kinds.now ≡ kind_names claims.now }
    requires above { parents.now ≡ parents_of kinds.now claims.now }
    requires objects { names_of names.now ≡ named_by sentences.now }
    ensures tale { IfOk result (λ said. tale_in said ≡ said_in kinds.now parents.now claims.now sentences.now) }
    ensures line { IfOk result (λ said. HasLine (long_with kinds.now parents.now claims.now sentences.now) said) }
{
    let statements = statements_in(alloc, names, sentences)?;
    let properties = property_names(alloc, claims)?;
    let variables = names_as(alloc, Sort::Variable, claims)?;
    let givens = givens_of(alloc, &properties, kinds, claims)?;
    let given = givens.as_slice();
    let doors = doors_of(alloc, kinds, parents, claims)?;
    let keys = names.keys();
    let scope = Scope::new(
        keys,
        kinds,
        parents,
        &properties,
        given,
        &doors,
        &variables,
        built_in,
    );
    let mentions = names.mentions();
    let said = judged(alloc, &scope, mentions, claims, statements.as_slice())?;
    Ok(said)
}

/// What the sentences with these claims and these objects' names mean, but for the actions that they declare.
fn said_by(
    alloc: Global,
    built_in: &[Naming],
    claims: &[Claim],
    names: &Names<'_>,
    sentences: &[Sentence],
) -> Result<Result<TaleSaid, Fault>, AllocError>
    requires built_in { built_in.now ≡ built_in_namings }
    requires objects { names_of names.now ≡ named_by sentences.now }
    ensures tale { IfOk result (λ said. tale_in said ≡ said_by claims.now sentences.now) }
    ensures line { IfOk result (λ said. HasLine (long_by claims.now sentences.now) said) }
{
    let kinds = kind_names(alloc, claims)?;
    let parents = parents_of(alloc, &kinds, claims)?;
    let said = said_in(
        alloc,
        &kinds,
        parents.as_slice(),
        built_in,
        claims,
        names,
        sentences,
    )?;
    Ok(said)
}

/// What the sentences mean: a tale or a refusal.
fn tale_said(alloc: Global, claimed: &Claimed<'_>) -> Result<Result<TaleSaid, Fault>, AllocError>
    ensures tale { IfOk result (λ said. tale_in said ≡ tale_said claimed.now) }
    ensures line { IfOk result (λ said. HasLine (long_said claimed.now) said) }
{
    let sentences = claimed.sentences();
    let said = said_by(
        alloc,
        claimed.built_in(),
        claimed.claims(),
        claimed.names(),
        sentences,
    )?;
    let actions = actions_said(alloc, sentences)?;
    Ok(with_actions(actions, said))
}

/// The tale that the sentences mean, or the refusal that stands, each code being looked for in the
/// whole source before the next, at the first sentence that shows it: C9, C7, C11, C8, C10, C12 of what is one too
/// many, C13, C16. Memory is C14, at line 1.
pub fn tale_of(alloc: Global, claimed: &Claimed<'_>) -> Result<TaleSaid, Fault>
    ensures told { IfOk result (λ said. tale_said claimed.now ≡ Ok said.tale) }
    ensures line { IfOk result (λ said. said.long_line ≡ long_said claimed.now) }
    ensures refused { IfErr result (λ fault. (tale_said claimed.now ≡ Err fault) ⊎ (fault ≡ out_of_memory)) }
{
    match tale_said(alloc, claimed) {
        Ok(said) => said,
        Err(_) => Err(Fault::OUT_OF_MEMORY),
    }
}
