//! The classes of a book's rules: for each action the places of those that name no action or that one.
ghost use Rattle.std.specs.Prelude.{◌≡◌, ◌≤◌, ◌++◌, [], ◌∷◌, IfOk, OnOk, length, slice_get};
ghost use Rattle.std.specs.List.{list_any};
ghost use Rattle.std.specs.Option.{option_map};
ghost use Rattle.story_format.specs.Facts.{rules_listed};
ghost use Rattle.rule_index.specs.Classes.{AreClasses, places_where, rule_has, rule_suits};

use crate::admitting::{has_action, suits};
use std::alloc::{AllocError, Global};
use std::marker::Model;
use std::rc::Rc;
use story_format::Story;
use world_meaning::Listed;

/// The number that stands for no action.
const NONE: u8 = 255;

/// The fewest rules of a book of which classes are made; shorter books are walked as they are.
const FEWEST: usize = 8;

/// Places in a book, by action; actions that no rule names share one list.
#[derive(Drop)]
pub struct Classes {
    all: Vec<Rc<Listed<u16>>>,
}

impl Model for Classes {
    ghost use Rattle.std.specs.Prelude.{List, ℕ, map};

    ghost Value = { List (List ℕ) };

    ghost view = { λ classes. map (λ class. class.value) classes.all.items };
}

impl Classes {
    /// No classes.
    fn none(alloc: Global) -> Classes
        ensures { result ≡ [] }
    {
        Classes {
            all: Vec::new(alloc),
        }
    }

    /// Adds a class.
    fn push(&mut self, class: Rc<Listed<u16>>) -> Result<(), AllocError>
        ensures { OnOk result (self.new ≡ self.old ++ class.value ∷ []) }
    {
        self.all.push(class)?;
        Ok(())
    }

    /// The class of an action, if there is one.
    pub fn get(&self, action: u8) -> Option<&[u16]>
        ensures { option_map (λ places. places.now) result ≡ slice_get self.now action }
    {
        let class = self.all.as_slice().get(usize::from(action))?;
        Some(class.as_ref().as_slice())
    }
}

/// The places of the listed rules that name no action or this one.
fn places_of(
    alloc: Global,
    story: &Story,
    listed: &[u16],
    action: u8,
) -> Result<Listed<u16>, AllocError>
    requires few { length listed.now ≤ 65535 }
    ensures { IfOk result (λ places. places ≡ places_where (rule_suits story.now action) 0 listed.now) }
{
    let mut places = Vec::new(alloc);
    let mut place = 0;
    let mut rest = listed;
    while let [rule, after @ ..] = rest {
        if suits(story, *rule, action) {
            places.push(place)?;
        }
        place += 1;
        rest = after;
    }
    Ok(Listed::new(places))
}

/// Whether one of the listed rules has the number of this action.
fn is_named(story: &Story, listed: &[u16], action: u8) -> bool
    ensures { result ≡ list_any (rule_has story.now action) listed.now }
{
    listed.iter().any(|rule| has_action(story, *rule, action))
}

/// The class of an action, where the class of none is at hand.
fn class_for(
    alloc: Global,
    story: &Story,
    listed: &[u16],
    action: u8,
    unnamed: &Rc<Listed<u16>>,
) -> Result<Rc<Listed<u16>>, AllocError>
    requires few { length listed.now ≤ 65535 }
    requires unnamed { unnamed.now.value ≡ places_where (rule_suits story.now 255) 0 listed.now }
    ensures { IfOk result (λ class. class.value ≡ places_where (rule_suits story.now action) 0 listed.now) }
{
    if !is_named(story, listed, action) {
        return Ok(unnamed.clone()?);
    }
    Ok(Rc::new(alloc, places_of(alloc, story, listed, action)?)?)
}

/// The classes of a book that lists these rules, one for each action's number.
fn classes_by_action(
    alloc: Global,
    story: &Story,
    book: u16,
    listed: &[u16],
) -> Result<Classes, AllocError>
    requires listed { listed.now ≡ rules_listed story.now book }
    requires few { length listed.now ≤ 65535 }
    ensures { IfOk result (AreClasses story.now book) }
{
    let unnamed = Rc::new(alloc, places_of(alloc, story, listed, NONE)?)?;
    let mut classes = Classes::none(alloc);
    for action in 0..256u16 {
        classes.push(class_for(alloc, story, listed, action as u8, &unnamed)?)?;
    }
    Ok(classes)
}

/// The classes of a book; none of one that is walked as it is.
pub fn classes_of(alloc: Global, story: &Story, book: u16) -> Result<Classes, AllocError>
    ensures { IfOk result (AreClasses story.now book) }
{
    let listed = story.rules_listed(book);
    if listed.len() < FEWEST || listed.len() > 65535 {
        return Ok(Classes::none(alloc));
    }
    classes_by_action(alloc, story, book, listed)
}
