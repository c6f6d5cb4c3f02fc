//! What a story gives to play besides texts and ways: kinds, properties and doors, and what objects begin with.
ghost use Rattle.std.specs.Prelude.{◌≡◌, ◌≤◌, IfOk, count_by, length};
ghost use Rattle.std.specs.Int.{cast_signed};
ghost use Rattle.world_meaning.specs.Declarations.{has_property, is_had};
ghost use Rattle.story_format.specs.Facts.{way_in};
ghost use Rattle.story_format.specs.InPlay.{article_numbered, article_of, door_in, exits_of, has_flag, has_number, is_of, number_from, start_flags, start_number, start_numbers, start_variables, starts_true};
ghost use Rattle.story_format.specs.Placed.{places_in};
ghost use Rattle.story_format.specs.Spells.{IsStory};

use crate::Story;
use crate::standing::places_in;
use crate::story::{exits_at, place_of_way};
use crate::tables::Entry;
use crate::world_checks::is_had;
use crate::world_tables::WorldTables;
use std::alloc::{AllocError, Global};
use world_meaning::{Article, Exits, Granted, KindNo, ObjNo, Place, is_under};

fn article_numbered(number: u8) -> Article
    ensures { result ≡ article_numbered number }
{
    if number == 1 {
        Article::A
    } else if number == 2 {
        Article::An
    } else if number == 3 {
        Article::Some
    } else {
        Article::None
    }
}

/// Whether objects of a kind have the property of a number.
fn has_property(
    parents: &[Option<KindNo>],
    granted: &[Granted],
    kind: KindNo,
    number: usize,
) -> bool
    ensures { result ≡ has_property parents.now granted.now kind number }
{
    match granted.get(number) {
        Some(one) => is_had(parents, kind, one),
        None => false,
    }
}

/// How many of these properties objects of a kind have.
fn count_had(parents: &[Option<KindNo>], kind: KindNo, granted: &[Granted]) -> usize
    ensures { result ≡ count_by (is_had parents.now kind) granted.now }
{
    granted
        .iter()
        .filter(|one| is_had(parents, kind, one))
        .count()
}

fn starts_true(property: usize, entry: &Entry) -> bool
    ensures { result ≡ starts_true property entry.now }
{
    entry
        .properties
        .as_slice()
        .iter()
        .any(|other| usize::from(*other) == property)
}

fn number_from(number: Option<u32>) -> i32
    ensures { result ≡ number_from number }
{
    match number {
        Some(number) => number.cast_signed(),
        None => 0,
    }
}

/// The number with which an object begins: it has one for each number property of its kind.
fn start_number(world: &WorldTables, property: usize, entry: &Entry) -> i32
    ensures { result ≡ start_number world.now property entry.now }
{
    let parents = world.kinds.as_slice();
    let granted = world.numbers.as_slice();
    let kind = KindNo::new(entry.kind);
    match granted.get(property) {
        Some(one) if is_had(parents, kind, one) => {
            let (before, _) = granted.split_at(property);
            let place = count_had(parents, kind, before);
            number_from(entry.numbers.as_slice().get(place).copied())
        }
        _ => 0,
    }
}

impl Story {
    /// The article that an object is printed with.
    pub fn article(&self, object: ObjNo) -> Article
        ensures { result ≡ article_of self.now object }
    {
        match self
            .tables()
            .objects
            .as_slice()
            .get(usize::from(object.get()))
        {
            Some(entry) => article_numbered(entry.article),
            None => Article::None,
        }
    }

    /// Whether an object is of a kind, or of one below it.
    pub fn is_of(&self, object: ObjNo, kind: KindNo) -> bool
        ensures { result ≡ is_of self.now object kind }
    {
        let tables = self.tables();
        match tables.objects.as_slice().get(usize::from(object.get())) {
            Some(entry) => is_under(tables.world.kinds.as_slice(), KindNo::new(entry.kind), kind),
            None => false,
        }
    }

    /// Whether an object's kind has the either-or property of a number.
    pub fn has_flag(&self, object: ObjNo, property: usize) -> bool
        ensures { result ≡ has_flag self.now object property }
    {
        let tables = self.tables();
        match tables.objects.as_slice().get(usize::from(object.get())) {
            Some(entry) => has_property(
                tables.world.kinds.as_slice(),
                tables.world.flags.as_slice(),
                KindNo::new(entry.kind),
                property,
            ),
            None => false,
        }
    }

    /// Whether an object's kind has the number property of a number.
    pub fn has_number(&self, object: ObjNo, property: usize) -> bool
        ensures { result ≡ has_number self.now object property }
    {
        let tables = self.tables();
        match tables.objects.as_slice().get(usize::from(object.get())) {
            Some(entry) => has_property(
                tables.world.kinds.as_slice(),
                tables.world.numbers.as_slice(),
                KindNo::new(entry.kind),
                property,
            ),
            None => false,
        }
    }

    /// The ways of a room, north first; none where the object is no room.
    pub fn exits(&self, room: ObjNo) -> Option<Exits>
        ensures { result ≡ exits_of self.now room }
    {
        let tables = self.tables();
        exits_at(
            tables.world.kinds.as_slice(),
            tables.objects.as_slice(),
            tables.ways.as_slice(),
            usize::from(room.get()),
        )
    }

    /// How many either-or properties there are.
    pub fn flag_count(&self) -> usize
        ensures { result ≡ length self.now.world.flags }
    {
        self.tables().world.flags.as_slice().len()
    }

    /// How many number properties there are.
    pub fn number_count(&self) -> usize
        ensures { result ≡ length self.now.world.numbers }
    {
        self.tables().world.numbers.as_slice().len()
    }

    /// How many scenes there are.
    #[tactic(auto, using(crate::proofs::RightRules::few_scenes))]
    pub fn scene_count(&self) -> usize
        ensures count { result ≡ length self.now.rules.scenes }
        ensures few { result ≤ 50 }
    {
        self.tables().rules.scenes.as_slice().len()
    }

    /// Where each object begins, by number.
    pub fn places(&self, alloc: Global) -> Result<Vec<Option<Place>>, AllocError>
        ensures story { IsStory self.now }
        ensures places { IfOk result (λ places. places.items ≡ places_in self.now.objects) }
    {
        places_in(alloc, self.tables().objects.as_slice())
    }

    /// Of each object, by number, whether it begins with the either-or property of a number.
    pub fn flags(&self, alloc: Global, property: usize) -> Result<Vec<bool>, AllocError>
        ensures { IfOk result (λ flags. flags.items ≡ start_flags self.now property) }
    {
        self.tables()
            .objects
            .as_slice()
            .iter()
            .map(|entry| starts_true(property, entry))
            .collect(alloc)
    }

    /// Of each object, by number, the number with which it begins in the number property of a number; 0 where its kind
    /// lacks that.
    pub fn numbers(&self, alloc: Global, property: usize) -> Result<Vec<i32>, AllocError>
        ensures { IfOk result (λ numbers. numbers.items ≡ start_numbers self.now property) }
    {
        let tables = self.tables();
        let world = &tables.world;
        tables
            .objects
            .as_slice()
            .iter()
            .map(|entry| start_number(world, property, entry))
            .collect(alloc)
    }

    /// What each variable is as the story begins, by number.
    pub fn variables(&self, alloc: Global) -> Result<Vec<i32>, AllocError>
        ensures { IfOk result (λ variables. variables.items ≡ start_variables self.now) }
    {
        self.tables()
            .world
            .variables
            .as_slice()
            .iter()
            .map(|variable| variable.start.cast_signed())
            .collect(alloc)
    }
}

/// The room beyond the way in the direction of a number.
pub fn way_in(exits: &Option<Exits>, direction: ObjNo) -> Option<ObjNo>
    ensures { result ≡ way_in exits.now direction }
{
    let Some(exits) = exits else {
        return None;
    };
    let way = exits.ways.get(place_of_way(direction))?;
    way.room
}

/// The door on the way in the direction of a number.
pub fn door_in(exits: &Option<Exits>, direction: ObjNo) -> Option<ObjNo>
    ensures { result ≡ door_in exits.now direction }
{
    let Some(exits) = exits else {
        return None;
    };
    let way = exits.ways.get(place_of_way(direction))?;
    way.door
}
