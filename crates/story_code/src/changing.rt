//! Changes of the world: one that is not allowed, or that is of nothing, does nothing.
ghost use Rattle.std.specs.Prelude.{◌≡◌, ◌≢◌, [], Err, MatchResult, OnErr, OnOk, slice_index_or};
ghost use Rattle.play_meaning.specs.Changes.{make_number, make_so, make_value, move, put, relation_to, take_away};
ghost use Rattle.play_meaning.specs.Worlds.{end_with, set_variable};
ghost use Rattle.play_meaning.specs.declared.fault.WorldFault.TheVariants.{Memory as Unremembered};
ghost use Rattle.world_meaning.specs.declared.session.Abandon.TheVariants.{Memory};
ghost use Rattle.story_code.specs.Steps.{LeadsBack};

use play_meaning::{Ground, GroundMut, WorldFault};
use std::alloc::Global;
use world_meaning::{Abandon, KindNo, ObjNo, Rel, TextBytes};

/// What a change comes to: one that isn't allowed does nothing, one that can't be remembered abandons the turn.
pub fn unless_refused(answer: Result<(), WorldFault>) -> Result<(), Abandon>
    ensures { MatchResult result (λ done. answer ≢ Err Unremembered) (λ reason. (answer ≡ Err Unremembered) × (reason ≡ Memory)) }
{
    match answer {
        Err(WorldFault::Memory) => Err(Abandon::Memory),
        _ => Ok(()),
    }
}

/// Makes an either-or property true of something or not.
pub fn make_so<G: GroundMut>(
    ground: &mut G,
    object: Option<ObjNo>,
    property: u8,
    value: bool,
) -> Result<(), Abandon>
    ensures made { OnOk result (G.world ground.new ≡ make_so (G.fixed ground.old).setting object property value (G.world ground.old)) }
    ensures refused { OnErr result ((result ≡ Err Memory) × (G.world ground.new ≡ G.world ground.old) × (G.past ground.new ≡ G.past ground.old)) }
    ensures past { LeadsBack (G.world ground.old) (G.past ground.old) (G.world ground.new) (G.past ground.new) }
    ensures fixed { G.fixed ground.new ≡ G.fixed ground.old }
{
    match object {
        None => Ok(()),
        Some(object) => unless_refused(ground.set_flag(object, property, value)),
    }
}

/// Sets the number of something in a number property.
pub fn make_number<G: GroundMut>(
    ground: &mut G,
    object: Option<ObjNo>,
    property: u8,
    value: i32,
) -> Result<(), Abandon>
    ensures made { OnOk result (G.world ground.new ≡ make_number (G.fixed ground.old).setting object property value (G.world ground.old)) }
    ensures refused { OnErr result ((result ≡ Err Memory) × (G.world ground.new ≡ G.world ground.old) × (G.past ground.new ≡ G.past ground.old)) }
    ensures past { LeadsBack (G.world ground.old) (G.past ground.old) (G.world ground.new) (G.past ground.new) }
    ensures fixed { G.fixed ground.new ≡ G.fixed ground.old }
{
    match object {
        None => Ok(()),
        Some(object) => unless_refused(ground.set_number(object, property, value)),
    }
}

/// Gives something a value of a kind of value.
pub fn make_value<G: GroundMut>(
    ground: &mut G,
    object: Option<ObjNo>,
    kind: u8,
    value: u8,
) -> Result<(), Abandon>
    ensures made { OnOk result (G.world ground.new ≡ make_value (G.fixed ground.old).setting object kind value (G.world ground.old)) }
    ensures refused { OnErr result ((result ≡ Err Memory) × (G.world ground.new ≡ G.world ground.old) × (G.past ground.new ≡ G.past ground.old)) }
    ensures past { LeadsBack (G.world ground.old) (G.past ground.old) (G.world ground.new) (G.past ground.new) }
    ensures fixed { G.fixed ground.new ≡ G.fixed ground.old }
{
    match object {
        None => Ok(()),
        Some(object) => unless_refused(ground.set_value(object, kind, value)),
    }
}

/// Sets a variable.
#[tactic(auto, using(crate::proofs::Unchanged::no_variable))]
pub fn make_variable<G: GroundMut>(ground: &mut G, variable: u8, value: i32) -> Result<(), Abandon>
    ensures made { OnOk result (G.world ground.new ≡ set_variable variable value (G.world ground.old)) }
    ensures refused { OnErr result ((result ≡ Err Memory) × (G.world ground.new ≡ G.world ground.old) × (G.past ground.new ≡ G.past ground.old)) }
    ensures past { LeadsBack (G.world ground.old) (G.past ground.old) (G.world ground.new) (G.past ground.new) }
    ensures fixed { G.fixed ground.new ≡ G.fixed ground.old }
{
    unless_refused(ground.set_variable(variable, value))
}

/// Puts something somewhere.
pub fn put<G: GroundMut>(
    ground: &mut G,
    object: Option<ObjNo>,
    relation: Rel,
    holder: Option<ObjNo>,
) -> Result<(), Abandon>
    ensures made { OnOk result (G.world ground.new ≡ put (G.fixed ground.old).setting object relation holder (G.world ground.old)) }
    ensures refused { OnErr result ((result ≡ Err Memory) × (G.world ground.new ≡ G.world ground.old) × (G.past ground.new ≡ G.past ground.old)) }
    ensures past { LeadsBack (G.world ground.old) (G.past ground.old) (G.world ground.new) (G.past ground.new) }
    ensures fixed { G.fixed ground.new ≡ G.fixed ground.old }
{
    let Some(object) = object else {
        return Ok(());
    };
    match holder {
        None => Ok(()),
        Some(holder) => unless_refused(ground.put(object, relation, holder)),
    }
}

/// How a holder of its kind holds what is moved to it.
fn relation_to<G: Ground>(ground: &G, holder: ObjNo) -> Option<Rel>
    ensures { result ≡ relation_to (G.fixed ground.now).setting holder }
{
    if ground.is_of(holder, KindNo::ROOM) || ground.is_of(holder, KindNo::CONTAINER) {
        Some(Rel::In)
    } else if ground.is_of(holder, KindNo::SUPPORTER) {
        Some(Rel::On)
    } else if ground.is_of(holder, KindNo::PERSON) {
        Some(Rel::Carried)
    } else {
        None
    }
}

/// Moves something to a holder.
pub fn move_to<G: GroundMut>(
    ground: &mut G,
    object: Option<ObjNo>,
    holder: Option<ObjNo>,
) -> Result<(), Abandon>
    ensures made { OnOk result (G.world ground.new ≡ move (G.fixed ground.old).setting object holder (G.world ground.old)) }
    ensures refused { OnErr result ((result ≡ Err Memory) × (G.world ground.new ≡ G.world ground.old) × (G.past ground.new ≡ G.past ground.old)) }
    ensures past { LeadsBack (G.world ground.old) (G.past ground.old) (G.world ground.new) (G.past ground.new) }
    ensures fixed { G.fixed ground.new ≡ G.fixed ground.old }
{
    let Some(holder) = holder else {
        return Ok(());
    };
    match relation_to(ground, holder) {
        None => Ok(()),
        Some(relation) => put(ground, object, relation, Some(holder)),
    }
}

/// Takes something away from where it is.
pub fn take_away<G: GroundMut>(ground: &mut G, object: Option<ObjNo>) -> Result<(), Abandon>
    ensures made { OnOk result (G.world ground.new ≡ take_away (G.fixed ground.old).setting object (G.world ground.old)) }
    ensures refused { OnErr result ((result ≡ Err Memory) × (G.world ground.new ≡ G.world ground.old) × (G.past ground.new ≡ G.past ground.old)) }
    ensures past { LeadsBack (G.world ground.old) (G.past ground.old) (G.world ground.new) (G.past ground.new) }
    ensures fixed { G.fixed ground.new ≡ G.fixed ground.old }
{
    match object {
        None => Ok(()),
        Some(object) => unless_refused(ground.take_out(object)),
    }
}

/// Ends the story with one of its strings.
pub fn end_story<G: GroundMut>(alloc: Global, ground: &mut G, string: u16) -> Result<(), Abandon>
    ensures made { OnOk result (G.world ground.new ≡ end_with (slice_index_or (G.fixed ground.old).strings string []) (G.world ground.old)) }
    ensures refused { OnErr result ((result ≡ Err Memory) × (G.world ground.new ≡ G.world ground.old) × (G.past ground.new ≡ G.past ground.old)) }
    ensures past { LeadsBack (G.world ground.old) (G.past ground.old) (G.world ground.new) (G.past ground.new) }
    ensures fixed { G.fixed ground.new ≡ G.fixed ground.old }
{
    match TextBytes::copied(alloc, ground.string(string)) {
        Ok(text) => unless_refused(ground.end_story(text)),
        Err(_) => Err(Abandon::Memory),
    }
}
