//! Texts with the names of objects, and the answers that say them.
ghost use Rattle.std.specs.Prelude.{◌≡◌, ◌++◌, IfOk, OnOk};
ghost use Rattle.play_meaning.specs.declared.naming.Naming.TheVariants.{CapitalDefinite, Definite, Indefinite};
ghost use Rattle.standard_rules.specs.Answers.{answer_of, are_any, refused_if, said_if, stop, name_of, names_of};

use crate::answer::{HostAnswer, refusing, saying, silence};
use play_meaning::Naming;
use std::alloc::{AllocError, Global};
use story_code::{say_listed, say_name};
use world_meaning::ObjNo;
use world_store::World;

/// An object, or nothing, and how it is named.
#[derive(Clone, Copy)]
pub struct Named {
    pub naming: Naming,
    pub object: Option<ObjNo>,
}

/// An object with `The`, as a sentence begins.
pub fn at_the_start(object: Option<ObjNo>) -> Named
    ensures { result ≡ record { naming = CapitalDefinite; object = object } }
{
    Named {
        naming: Naming::CapitalDefinite,
        object,
    }
}

/// An object with `the`, within a sentence.
pub fn within(object: Option<ObjNo>) -> Named
    ensures { result ≡ record { naming = Definite; object = object } }
{
    Named {
        naming: Naming::Definite,
        object,
    }
}

/// Adds an object's name, or that it is nothing.
fn add_name(text: &mut Vec<u8>, world: &World, name: Named) -> Result<(), AllocError>
    ensures { OnOk result (text.new.items ≡ text.old.items ++ name_of world.now name.naming name.object) }
{
    match say_name(world, text, name.naming, name.object) {
        Ok(()) => Ok(()),
        Err(_) => Err(AllocError),
    }
}

/// Adds objects as a list with `a` or `an`, or that they are nothing.
pub fn add_list(text: &mut Vec<u8>, world: &World, objects: &[ObjNo]) -> Result<(), AllocError>
    ensures { OnOk result (text.new.items ≡ text.old.items ++ names_of world.now Indefinite objects.now) }
{
    match say_listed(world, text, Naming::Indefinite, objects) {
        Ok(()) => Ok(()),
        Err(_) => Err(AllocError),
    }
}

/// A text with a name in it.
pub fn with_name(
    alloc: Global,
    world: &World,
    front: &[u8],
    name: Named,
    behind: &[u8],
) -> Result<Vec<u8>, AllocError>
    ensures { IfOk result (λ text. text.items ≡ front.now ++ (name_of world.now name.naming name.object ++ behind.now)) }
{
    let mut text = Vec::from_slice(alloc, front)?;
    add_name(&mut text, world, name)?;
    text.extend_from_slice(behind)?;
    Ok(text)
}

/// A text that ends with a second name and a full stop.
pub fn with_names(
    alloc: Global,
    world: &World,
    front: &[u8],
    object: Option<ObjNo>,
    between: &[u8],
    other: Option<ObjNo>,
) -> Result<Vec<u8>, AllocError>
    ensures { IfOk result (λ text. text.items ≡ front.now ++ (name_of world.now Definite object ++ (between.now ++ (name_of world.now Definite other ++ stop)))) }
{
    let mut text = with_name(alloc, world, front, within(object), between)?;
    add_name(&mut text, world, within(other))?;
    text.extend_from_slice(b".\n")?;
    Ok(text)
}

/// A text with a list in it.
pub fn with_list(
    alloc: Global,
    world: &World,
    front: &[u8],
    objects: &[ObjNo],
    behind: &[u8],
) -> Result<Vec<u8>, AllocError>
    ensures { IfOk result (λ text. text.items ≡ front.now ++ (names_of world.now Indefinite objects.now ++ behind.now)) }
{
    let mut text = Vec::from_slice(alloc, front)?;
    add_list(&mut text, world, objects)?;
    text.extend_from_slice(behind)?;
    Ok(text)
}

/// The answer that says a text with a name instead of the action, where this is so.
pub fn refused_with_name(
    alloc: Global,
    world: &World,
    is: bool,
    front: &[u8],
    object: Option<ObjNo>,
    behind: &[u8],
) -> Result<HostAnswer, AllocError>
    ensures { IfOk result (λ answer. answer_of answer ≡ refused_if is (front.now ++ (name_of world.now Definite object ++ behind.now))) }
{
    if !is {
        return Ok(silence(alloc));
    }
    let text = with_name(alloc, world, front, within(object), behind)?;
    Ok(refusing(alloc, text))
}

/// The answer that says a text which begins with a name instead of the action, where this is so.
pub fn refused_from_name(
    alloc: Global,
    world: &World,
    is: bool,
    object: Option<ObjNo>,
    behind: &[u8],
) -> Result<HostAnswer, AllocError>
    ensures { IfOk result (λ answer. answer_of answer ≡ refused_if is (name_of world.now CapitalDefinite object ++ behind.now)) }
{
    if !is {
        return Ok(silence(alloc));
    }
    let text = with_name(alloc, world, b"", at_the_start(object), behind)?;
    Ok(refusing(alloc, text))
}

/// The answer that lists objects, if there is one.
pub fn listed_if_any(
    alloc: Global,
    world: &World,
    front: &[u8],
    objects: &[ObjNo],
    behind: &[u8],
) -> Result<HostAnswer, AllocError>
    ensures { IfOk result (λ answer. answer_of answer ≡ said_if (are_any objects.now) (front.now ++ (names_of world.now Indefinite objects.now ++ behind.now))) }
{
    match objects {
        [] => Ok(silence(alloc)),
        [_, ..] => {
            let text = with_list(alloc, world, front, objects, behind)?;
            Ok(saying(alloc, text))
        }
    }
}
