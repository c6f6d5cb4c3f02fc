//! What a way says of the columns and the rows of its rooms.
use world_meaning::Direction;

/// Where the second of two rooms lies along an axis, seen from the first.
#[derive(Clone, Copy, Debug, PartialEq, Eq)]
pub enum Step {
    /// On the same line.
    Same,
    /// Behind it, eastward or southward.
    Behind,
    /// Before it, westward or northward.
    Before,
}

/// What a direction says of the columns and of the rows. Up is drawn to the northeast, down to the southwest, inside to the southeast and outside to the
/// northwest, where nothing else is said.
pub fn steps(direction: Direction) -> (Step, Step) {
    match direction {
        Direction::North => (Step::Same, Step::Before),
        Direction::Northeast | Direction::Up => (Step::Behind, Step::Before),
        Direction::Northwest | Direction::Outside => (Step::Before, Step::Before),
        Direction::South => (Step::Same, Step::Behind),
        Direction::Southeast | Direction::Inside => (Step::Behind, Step::Behind),
        Direction::Southwest | Direction::Down => (Step::Before, Step::Behind),
        Direction::East => (Step::Behind, Step::Same),
        Direction::West => (Step::Before, Step::Same),
    }
}

/// Whether a direction is one of the compass.
pub fn is_of_compass(direction: Direction) -> bool {
    !matches!(
        direction,
        Direction::Up | Direction::Down | Direction::Inside | Direction::Outside
    )
}
