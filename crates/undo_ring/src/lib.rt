//! The turns that can be taken back: what was kept of each, the latest in front, of the last eight.
#![tactic(auto)]

mod ring;

pub use ring::Ring;
