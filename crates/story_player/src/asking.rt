//! The question that is asked where a phrase of a command may mean several things (*Writing with Inform*, chapter 17).
ghost use Rattle.std.specs.Prelude.{◌≡◌, ◌<◌, ◌+◌, ◌++◌, Err, IfErr, IfOk, OnErr, OnOk};
ghost use Rattle.play_meaning.specs.Commands.{asking_text, offered, offered_on};
ghost use Rattle.play_meaning.specs.Saying.{named};
ghost use Rattle.play_meaning.specs.Sessions.{parted_by_break};
ghost use Rattle.play_meaning.specs.declared.naming.Naming.TheVariants.{Definite};
ghost use Rattle.world_meaning.specs.declared.session.Abandon.TheVariants.{Memory};
ghost use Rattle.world_store.specs.StorySettings.{setting_of};

use crate::line_text::LineText;
use crate::telling::add;
use play_meaning::Naming;
use std::alloc::Global;
use story_code::say_name;
use world_meaning::{Abandon, ObjNo, TextBytes};
use world_store::World;

/// Adds an object's name with `the`.
fn add_name(world: &World, text: &mut Vec<u8>, object: ObjNo) -> Result<(), Abandon>
    ensures said { OnOk result (text.new.items ≡ text.old.items ++ named (setting_of world.now.tables) Definite object) }
    ensures refused { OnErr result (result ≡ Err Memory) }
{
    say_name(world, text, Naming::Definite, Some(object))
}

/// Adds the objects behind the first of those that are offered: `or` stands in front of the last.
fn add_others(world: &World, text: &mut Vec<u8>, objects: &[ObjNo]) -> Result<(), Abandon>
    ensures said { OnOk result (text.new.items ≡ text.old.items ++ offered_on (setting_of world.now.tables) objects.now) }
    ensures refused { OnErr result (result ≡ Err Memory) }
{
    let mut rest = objects;
    while let [object, after @ ..] = rest {
        if after.is_empty() {
            add(text, b" or ")?;
        } else {
            add(text, b", ")?;
        }
        add_name(world, text, *object)?;
        rest = after;
    }
    Ok(())
}

/// Adds the objects that are offered.
fn add_offered(world: &World, text: &mut Vec<u8>, objects: &[ObjNo]) -> Result<(), Abandon>
    ensures said { OnOk result (text.new.items ≡ text.old.items ++ offered (setting_of world.now.tables) objects.now) }
    ensures refused { OnErr result (result ≡ Err Memory) }
{
    match objects {
        [] => Ok(()),
        [first, others @ ..] => {
            add_name(world, text, *first)?;
            add_others(world, text, others)
        }
    }
}

/// `Which do you mean, the x, the y or the z?`, of these objects.
fn asking_text(alloc: Global, world: &World, objects: &[ObjNo]) -> Result<TextBytes, Abandon>
    ensures text { IfOk result (λ text. text ≡ asking_text (setting_of world.now.tables) objects.now) }
    ensures refused { IfErr result (λ reason. reason ≡ Memory) }
{
    let mut text = Vec::new(alloc);
    add(&mut text, b"Which do you mean, ")?;
    add_offered(world, &mut text, objects)?;
    add(&mut text, b"?\n")?;
    Ok(TextBytes::new(text))
}

/// Asks which of these objects is meant. Where memory is refused nothing is said.
pub(crate) fn ask(
    alloc: Global,
    world: &World,
    objects: &[ObjNo],
    text: &mut LineText,
) -> Result<(), Abandon>
    requires room { 0 < text.old.left }
    ensures said { OnOk result (text.new.said ≡ parted_by_break text.old.said (asking_text (setting_of world.now.tables) objects.now)) }
    ensures left { OnOk result (text.new.left + 1 ≡ text.old.left) }
    ensures refused { IfErr result (λ reason. reason ≡ Memory) }
    ensures same { OnErr result (text.new ≡ text.old) }
{
    let asked = asking_text(alloc, world, objects)?;
    Ok(text.add_made(asked.as_slice())?)
}
