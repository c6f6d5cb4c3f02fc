//! The map as a picture: each room a box that leads to its entry, each way a line, which is straight where it leads in its direction and passes by the other rooms.
use crate::drawing::{
    BOX, Line, Point, centre, corner, drawn_as, is_other, label_at, line_of, size,
};
use crate::html::Html;
use crate::label::lines_of;
use crate::tale_index::{IndexWay, TaleIndex, plain_ways};
use room_map::{Spot, is_clear, is_toward, laid_out};
use std::alloc::{AllocError, Global};
use world_meaning::Direction;

/// Adds a point of a path.
fn add_point(page: &mut Html, point: Point) -> Result<(), AllocError> {
    page.number(point.x)?;
    page.markup(" ")?;
    page.number(point.y)
}

/// Adds where something stands: its two attributes.
fn add_place(page: &mut Html, point: Point) -> Result<(), AllocError> {
    page.markup(" x=\"")?;
    page.number(point.x)?;
    page.markup("\" y=\"")?;
    page.number(point.y)?;
    page.markup("\"")
}

/// The word by which a way is told at its start.
fn word_of(direction: Direction) -> &'static [u8] {
    match direction {
        Direction::Up => b"up",
        Direction::Down => b"down",
        Direction::Inside => b"in",
        Direction::Outside => b"out",
        _ => direction.short_word(),
    }
}

/// Whether a way leads back as another leads there.
fn is_back(way: &IndexWay, other: &IndexWay) -> bool {
    other.way.from == way.way.to
        && other.way.to == way.way.from
        && other.way.direction == way.way.direction.opposite()
}

/// Whether a way leads back as this leads there.
pub fn has_back(ways: &[IndexWay], way: &IndexWay) -> bool {
    ways.iter().any(|other| is_back(way, other))
}

/// How a way is drawn.
#[derive(Clone, Copy, Debug, PartialEq, Eq)]
enum Shape {
    /// As a straight line: it leads in its direction, and passes by the other rooms.
    Straight,
    /// As a curve that bends aside: it leads in its direction, but over a room.
    Bent,
    /// As a curve: it leads in another direction.
    Curve,
}

/// How a way is drawn.
fn shape_of(way: &IndexWay, from: Spot, to: Spot, spots: &[Spot]) -> Shape {
    if !is_toward(drawn_as(way.way.direction), from, to) {
        Shape::Curve
    } else if is_clear(from, to, spots) {
        Shape::Straight
    } else {
        Shape::Bent
    }
}

/// Adds the name of a way: whence, in which direction, and where it leads.
fn add_title(page: &mut Html, index: &TaleIndex<'_>, way: &IndexWay) -> Result<(), AllocError> {
    page.markup("<title>")?;
    page.text(index.object_name(index.room(way.way.from)))?;
    page.markup(", ")?;
    page.text(way.way.direction.name())?;
    page.markup(": ")?;
    page.text(index.object_name(index.room(way.way.to)))?;
    if let Some(door) = way.door {
        page.markup(", by ")?;
        page.text(index.object_name(usize::from(door.get())))?;
    }
    page.markup("</title>")
}

/// Adds the line of a way: straight, or a curve with an arrow.
fn add_path(
    page: &mut Html,
    line: &Line,
    is_straight: bool,
    has_arrow: bool,
    is_other: bool,
) -> Result<(), AllocError> {
    page.markup(if is_other {
        "<path class=\"other\""
    } else {
        "<path"
    })?;
    if has_arrow {
        page.markup(" marker-end=\"url(#to)\"")?;
    }
    page.markup(" d=\"M")?;
    add_point(page, line.from)?;
    page.markup(if is_straight { " L" } else { " C" })?;
    if !is_straight {
        add_point(page, line.leaving)?;
        page.markup(" ")?;
        add_point(page, line.reaching)?;
        page.markup(" ")?;
    }
    add_point(page, line.to)?;
    page.markup("\"/>")
}

/// Adds the word of a way at its start.
fn add_word(page: &mut Html, from: Spot, direction: Direction) -> Result<(), AllocError> {
    page.markup("<text class=\"say\"")?;
    add_place(page, label_at(from, direction))?;
    page.markup(">")?;
    page.text(word_of(direction))?;
    page.markup("</text>")
}

/// Adds the door on a line.
fn add_door(
    page: &mut Html,
    index: &TaleIndex<'_>,
    door: usize,
    at: Point,
) -> Result<(), AllocError> {
    page.open_link("o", door)?;
    page.markup("<g class=\"door\"><title>")?;
    page.text(index.object_name(door))?;
    page.markup("</title><rect")?;
    add_place(page, at.plus(Point { x: -6, y: -6 }))?;
    page.markup(" width=\"12\" height=\"12\"/></g></a>")
}

/// A way as it is drawn: from here to there, and whether another leads back as it leads there.
#[derive(Clone, Copy)]
struct Drawn {
    from: Spot,
    to: Spot,
    has_back: bool,
    shape: Shape,
}

impl Drawn {
    fn is_straight(self) -> bool {
        self.shape == Shape::Straight
    }

    /// The line of a way in this direction.
    fn line(self, direction: Direction) -> Line {
        let line = line_of(self.from, direction, self.to);
        if self.shape == Shape::Bent {
            line.bent(direction)
        } else {
            line
        }
    }
}

/// Adds a way that is drawn.
fn add_drawn(
    page: &mut Html,
    index: &TaleIndex<'_>,
    way: &IndexWay,
    drawn: Drawn,
) -> Result<(), AllocError> {
    let direction = way.way.direction;
    let line = drawn.line(direction);
    let is_single = !(drawn.has_back && drawn.is_straight());
    page.markup(if drawn.is_straight() {
        "<g class=\"straight\">"
    } else {
        "<g class=\"curve\">"
    })?;
    add_title(page, index, way)?;
    add_path(
        page,
        &line,
        drawn.is_straight(),
        is_single,
        is_other(direction),
    )?;
    if is_other(direction) || !drawn.is_straight() {
        add_word(page, drawn.from, direction)?;
    }
    if is_other(direction) && !is_single {
        add_word(page, drawn.to, direction.opposite())?;
    }
    if let Some(door) = way.door {
        let at = if drawn.is_straight() {
            line.middle()
        } else {
            line.middle_of_curve()
        };
        add_door(page, index, usize::from(door.get()), at)?;
    }
    page.markup("</g>\n")
}

/// Adds a way; one that leads back as a straight line is drawn with the other.
fn add_way(
    page: &mut Html,
    index: &TaleIndex<'_>,
    spots: &[Spot],
    way: &IndexWay,
) -> Result<(), AllocError> {
    let (Some(from), Some(to)) = (spots.get(way.way.from), spots.get(way.way.to)) else {
        return Ok(());
    };
    let drawn = Drawn {
        from: *from,
        to: *to,
        has_back: has_back(index.ways.as_slice(), way),
        shape: shape_of(way, *from, *to, spots),
    };
    if drawn.is_straight() && drawn.has_back && way.way.to < way.way.from {
        return Ok(());
    }
    add_drawn(page, index, way, drawn)
}

/// Adds a line of a room's name.
fn add_name_line(page: &mut Html, at: Point, text: &[u8], is_cut: bool) -> Result<(), AllocError> {
    page.markup("<text")?;
    add_place(page, at)?;
    page.markup(">")?;
    page.text(text)?;
    page.markup(if is_cut { "…</text>" } else { "</text>" })
}

/// Adds the name of a room in its box.
fn add_name(page: &mut Html, spot: Spot, name: &[u8]) -> Result<(), AllocError> {
    let lines = lines_of(name);
    let middle = centre(spot);
    if lines.second.is_empty() {
        return add_name_line(page, middle.plus(Point { x: 0, y: 4 }), lines.first, false);
    }
    add_name_line(page, middle.plus(Point { x: 0, y: -4 }), lines.first, false)?;
    let below = middle.plus(Point { x: 0, y: 12 });
    add_name_line(page, below, lines.second, lines.is_cut)
}

/// Adds the box of a room.
fn add_box(page: &mut Html, spot: Spot) -> Result<(), AllocError> {
    page.markup("<rect")?;
    add_place(page, corner(spot))?;
    page.markup(" width=\"")?;
    page.number(BOX.x)?;
    page.markup("\" height=\"")?;
    page.number(BOX.y)?;
    page.markup("\" rx=\"6\"/>")
}

/// Adds a room: its box and its name, which lead to its entry.
fn add_room(
    page: &mut Html,
    index: &TaleIndex<'_>,
    place: usize,
    start: usize,
    spot: Spot,
) -> Result<(), AllocError> {
    let name = index.object_name(index.room(place));
    page.open_link("o", index.room(place))?;
    page.markup(if place == start {
        "<g class=\"start\"><title>"
    } else if index.is_reached(place) {
        "<g class=\"room\"><title>"
    } else {
        "<g class=\"lost\"><title>"
    })?;
    page.text(name)?;
    page.markup("</title>")?;
    add_box(page, spot)?;
    add_name(page, spot, name)?;
    page.markup("</g></a>\n")
}

/// Adds the rooms.
fn add_rooms(
    page: &mut Html,
    index: &TaleIndex<'_>,
    start: usize,
    spots: &[Spot],
) -> Result<(), AllocError> {
    for place in 0..spots.len() {
        if let Some(spot) = spots.get(place) {
            add_room(page, index, place, start, *spot)?;
        }
    }
    Ok(())
}

/// The first row of the rooms that no way reaches, if there are any.
fn lost_row(index: &TaleIndex<'_>, spots: &[Spot]) -> Option<u32> {
    let mut first: Option<u32> = None;
    for place in 0..spots.len() {
        if let Some(spot) = spots.get(place)
            && !index.is_reached(place)
        {
            first = Some(first.map_or(spot.row, |row| row.min(spot.row)));
        }
    }
    first
}

/// Adds what is said above the rooms that no way reaches.
fn add_lost(page: &mut Html, index: &TaleIndex<'_>, spots: &[Spot]) -> Result<(), AllocError> {
    let Some(row) = lost_row(index, spots) else {
        return Ok(());
    };
    let at = corner(Spot { column: 0, row }).plus(Point { x: 0, y: -14 });
    page.markup("<text class=\"group\"")?;
    add_place(page, at)?;
    page.markup(">No way from the start leads here</text>\n")
}

/// The columns and rows that the rooms take up.
fn extent(spots: &[Spot]) -> Point {
    let (mut columns, mut rows) = (1i64, 1i64);
    for spot in spots {
        columns = columns.max(i64::from(spot.column).saturating_add(1));
        rows = rows.max(i64::from(spot.row).saturating_add(1));
    }
    size(columns, rows)
}

/// Adds the beginning of the picture: its size, and the head of an arrow.
fn open_picture(page: &mut Html, size: Point) -> Result<(), AllocError> {
    page.markup(
        "<svg xmlns=\"http://www.w3.org/2000/svg\" role=\"img\" aria-label=\"Map\" width=\"",
    )?;
    page.number(size.x)?;
    page.markup("\" height=\"")?;
    page.number(size.y)?;
    page.markup("\" viewBox=\"0 0 ")?;
    add_point(page, size)?;
    page.markup(
        "\">\n<defs><marker id=\"to\" viewBox=\"0 0 8 8\" refX=\"7\" refY=\"4\" markerWidth=\"7\" markerHeight=\"7\" orient=\"auto\">",
    )?;
    page.markup("<path d=\"M0 0 L8 4 L0 8 z\"/></marker></defs>\n")
}

/// Adds the map.
pub fn add_map(
    alloc: Global,
    page: &mut Html,
    index: &TaleIndex<'_>,
    start: usize,
) -> Result<(), AllocError> {
    let ways = plain_ways(alloc, index.ways.as_slice())?;
    let rooms = u16::try_from(index.rooms.len()).unwrap_or(u16::MAX);
    let spots = laid_out(alloc, rooms, start, ways.as_slice())?;
    let spots = spots.as_slice();
    page.markup("<div class=\"map\">")?;
    open_picture(page, extent(spots))?;
    for way in index.ways.as_slice() {
        add_way(page, index, spots, way)?;
    }
    add_rooms(page, index, start, spots)?;
    add_lost(page, index, spots)?;
    page.markup("</svg></div>\n")
}
