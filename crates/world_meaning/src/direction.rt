//! The twelve directions (*Writing with Inform*, chapter 3.2).
ghost use Rattle.std.specs.Prelude.{◌≡◌};

use crate::ObjNo;

/// A direction; its object number is its place in this list, counted from 1.
#[derive(Clone, Copy, Debug, Hash, PartialEq, Eq)]
pub enum Direction {
    North,
    Northeast,
    Northwest,
    South,
    Southeast,
    Southwest,
    East,
    West,
    Up,
    Down,
    Inside,
    Outside,
}

/// A direction: its name, as its object is printed, the short word that a command may name it by, and the direction that
/// leads back.
pub type DirectionRow<'a> = (&'a [u8], &'a [u8], Direction);

/// The directions, by number.
pub const DIRECTIONS: [DirectionRow<'static>; 12] = [
    (b"north", b"n", Direction::South),
    (b"northeast", b"ne", Direction::Southwest),
    (b"northwest", b"nw", Direction::Southeast),
    (b"south", b"s", Direction::North),
    (b"southeast", b"se", Direction::Northwest),
    (b"southwest", b"sw", Direction::Northeast),
    (b"east", b"e", Direction::West),
    (b"west", b"w", Direction::East),
    (b"up", b"u", Direction::Down),
    (b"down", b"d", Direction::Up),
    (b"inside", b"in", Direction::Outside),
    (b"outside", b"out", Direction::Inside),
];

impl Direction {
    ghost use Rattle.world_meaning.specs.Directions.{direction_name, direction_number, opposite_of, short_word};

    /// The direction's object number, 1 to 12.
    pub fn number(self) -> ObjNo
        ensures { result ≡ direction_number self }
    {
        ObjNo::new(self as u16 + 1)
    }

    /// The direction that leads back.
    #[tactic(auto, unfolding(crate::specs::Directions::opposite_of))]
    pub fn opposite(self) -> Direction
        ensures { result ≡ opposite_of self }
    {
        DIRECTIONS[self as usize].2
    }

    /// The direction's name, as its object is printed.
    #[tactic(auto, unfolding(crate::specs::Directions::direction_name))]
    pub fn name(self) -> &'static [u8]
        ensures { result.now ≡ direction_name self }
    {
        DIRECTIONS[self as usize].0
    }

    /// The short word that a command may name the direction by.
    #[tactic(auto, unfolding(crate::specs::Directions::short_word))]
    pub fn short_word(self) -> &'static [u8]
        ensures { result.now ≡ short_word self }
    {
        DIRECTIONS[self as usize].1
    }

    /// All directions, in the order of their numbers.
    pub const ALL: [Direction; 12] = [
        Direction::North,
        Direction::Northeast,
        Direction::Northwest,
        Direction::South,
        Direction::Southeast,
        Direction::Southwest,
        Direction::East,
        Direction::West,
        Direction::Up,
        Direction::Down,
        Direction::Inside,
        Direction::Outside,
    ];
}
