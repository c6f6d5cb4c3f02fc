//! Places on a map, and which of them lies where.
ghost use Rattle.std.specs.Prelude.{◌≡◌};
ghost use Rattle.std.specs.List.{list_any};
ghost use Rattle.room_map.specs.Spots.{are_apart, is_same_spot, is_toward};

use world_meaning::Direction;

/// A place on a map: columns are counted eastward, rows southward.
#[derive(Clone, Copy, Debug, PartialEq, Eq)]
pub struct Spot {
    pub column: u32,
    pub row: u32,
}

/// A way from a room to another; rooms go by their places in a list.
#[derive(Clone, Copy, Debug)]
pub struct RoomWay {
    pub from: usize,
    pub direction: Direction,
    pub to: usize,
}

/// Whether a place lies in a compass direction of another: straight north, south, east or west of it, or between two of these. No place lies up or down,
/// inside or outside.
pub fn is_toward(direction: Direction, from: Spot, to: Spot) -> bool
    ensures { result ≡ is_toward direction from to }
{
    match direction {
        Direction::North => to.column == from.column && to.row < from.row,
        Direction::Northeast => from.column < to.column && to.row < from.row,
        Direction::Northwest => to.column < from.column && to.row < from.row,
        Direction::South => to.column == from.column && from.row < to.row,
        Direction::Southeast => from.column < to.column && from.row < to.row,
        Direction::Southwest => to.column < from.column && from.row < to.row,
        Direction::East => from.column < to.column && to.row == from.row,
        Direction::West => to.column < from.column && to.row == from.row,
        Direction::Up | Direction::Down | Direction::Inside | Direction::Outside => false,
    }
}

/// Whether two places are one.
fn is_same_spot(one: Spot, other: Spot) -> bool
    ensures { result ≡ is_same_spot one other }
{
    one.column == other.column && one.row == other.row
}

/// Whether a place is among these.
fn is_among(spot: Spot, others: &[Spot]) -> bool
    ensures { result ≡ list_any (is_same_spot spot) others.now }
{
    others.iter().any(|other| is_same_spot(spot, *other))
}

/// Whether no two of these places are one.
#[tactic(auto, unfolding(crate::specs::Spots::are_apart))]
pub fn are_apart(spots: &[Spot]) -> bool
    ensures { result ≡ are_apart spots.now }
{
    let mut rest = spots;
    while let [spot, after @ ..] = rest {
        if is_among(*spot, after) {
            return false;
        }
        rest = after;
    }
    true
}
