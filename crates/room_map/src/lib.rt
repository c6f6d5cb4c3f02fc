//! The map of rooms: where each is drawn, by the ways between them. No two are drawn in one place, and a room that lies in a compass direction of another is
//! drawn in that direction wherever the ways can hold together.
#![tactic(auto)]

mod axis;
mod cells;
mod compass;
mod groups;
mod layout;
mod levels;
mod order;
mod parting;
mod passing;
mod shelves;
mod sight;
mod spot;
mod tables;

pub use groups::reached_from;
pub use layout::laid_out;
pub use sight::is_clear;
pub use spot::{RoomWay, Spot, are_apart, is_toward};
