//! The points of a map's picture: the boxes of rooms, and the lines between them.
use room_map::Spot;
use world_meaning::Direction;

/// The width and the height of a cell of the map, and of the box of a room in it.
pub const CELL: Point = Point { x: 166, y: 94 };

pub const BOX: Point = Point { x: 128, y: 48 };

/// What stays free around the map.
const MARGIN: i64 = 26;

/// A point of the picture, or how far one lies from another.
#[derive(Clone, Copy, Debug)]
pub struct Point {
    pub x: i64,
    pub y: i64,
}

/// A line between two points, which leaves them toward these.
#[derive(Clone, Copy, Debug)]
pub struct Line {
    pub from: Point,
    pub leaving: Point,
    pub reaching: Point,
    pub to: Point,
}

impl Point {
    /// The point that lies so far from this.
    pub fn plus(self, other: Point) -> Point {
        Point {
            x: self.x.saturating_add(other.x),
            y: self.y.saturating_add(other.y),
        }
    }

    /// So many times as far along each axis.
    pub fn times(self, x: i64, y: i64) -> Point {
        Point {
            x: self.x.saturating_mul(x),
            y: self.y.saturating_mul(y),
        }
    }

    fn half(self) -> Point {
        Point {
            x: self.x / 2,
            y: self.y / 2,
        }
    }
}

/// The middle of a cell.
pub fn centre(spot: Spot) -> Point {
    let corner = Point {
        x: i64::from(spot.column),
        y: i64::from(spot.row),
    };
    let margin = Point {
        x: MARGIN,
        y: MARGIN,
    };
    corner.times(CELL.x, CELL.y).plus(CELL.half()).plus(margin)
}

/// The corner of a room's box, to the northwest.
pub fn corner(spot: Spot) -> Point {
    centre(spot).plus(BOX.half().times(-1, -1))
}

/// How large the picture is, with so many columns and rows.
pub fn size(columns: i64, rows: i64) -> Point {
    let cells = Point {
        x: columns,
        y: rows,
    };
    let margin = Point {
        x: MARGIN,
        y: MARGIN,
    };
    cells.times(CELL.x, CELL.y).plus(margin.times(2, 2))
}

/// The direction in which a way is drawn: up to the northeast, down to the southwest, inside to the southeast, outside to the northwest.
pub fn drawn_as(direction: Direction) -> Direction {
    match direction {
        Direction::Up => Direction::Northeast,
        Direction::Down => Direction::Southwest,
        Direction::Inside => Direction::Southeast,
        Direction::Outside => Direction::Northwest,
        _ => direction,
    }
}

/// Whether a way isn't one of the compass.
pub fn is_other(direction: Direction) -> bool {
    drawn_as(direction) != direction
}

/// Where a direction leads, one step along each axis.
pub fn step(direction: Direction) -> Point {
    let (x, y) = match drawn_as(direction) {
        Direction::North => (0, -1),
        Direction::Northeast => (1, -1),
        Direction::Northwest => (-1, -1),
        Direction::South => (0, 1),
        Direction::Southeast => (1, 1),
        Direction::Southwest => (-1, 1),
        Direction::East => (1, 0),
        _ => (-1, 0),
    };
    Point { x, y }
}

/// Where a way leaves the box of a room.
fn port(spot: Spot, direction: Direction) -> Point {
    let half = BOX.half();
    centre(spot).plus(step(direction).times(half.x, half.y))
}

/// How far a curve goes on in the direction in which it leaves.
const REACH: Point = Point { x: 46, y: 44 };

/// How far a curve bends aside that would lead over a room.
const BEND: Point = Point { x: 110, y: 62 };

impl Line {
    /// The same line, bent aside.
    pub fn bent(self, direction: Direction) -> Line {
        let step = step(direction);
        let aside = Point {
            x: step.y.saturating_mul(-1),
            y: step.x,
        };
        let aside = aside.times(BEND.x, BEND.y);
        Line {
            leaving: self.leaving.plus(aside),
            reaching: self.reaching.plus(aside),
            ..self
        }
    }
}

/// The line of a way.
pub fn line_of(from: Spot, direction: Direction, to: Spot) -> Line {
    let back = drawn_as(direction).opposite();
    let (start, end) = (port(from, direction), port(to, back));
    Line {
        from: start,
        leaving: start.plus(step(direction).times(REACH.x, REACH.y)),
        reaching: end.plus(step(back).times(REACH.x, REACH.y)),
        to: end,
    }
}

impl Line {
    /// The middle of the line, if it is straight.
    pub fn middle(&self) -> Point {
        self.from.plus(self.to).half()
    }

    /// The middle of the curve.
    pub fn middle_of_curve(&self) -> Point {
        let ends = self.from.plus(self.to);
        let handles = self.leaving.plus(self.reaching).times(3, 3);
        ends.plus(handles).half().half().half()
    }
}

/// Where the word of a way stands, beside the line near its start.
pub fn label_at(from: Spot, direction: Direction) -> Point {
    let side = Point { x: 0, y: 4 };
    port(from, direction)
        .plus(step(direction).times(16, 11))
        .plus(side)
}
