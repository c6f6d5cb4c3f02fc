//! What a source tells and what a typed line means: the numbers, the tale and the definitions that every
//! other crate's contracts speak of.
#![tactic(auto)]

mod article;
mod chain_laws;
mod declared;
mod direction;
mod exits;
mod fault;
mod holders;
mod kind_laws;
mod kinds;
mod listed;
mod literal;
mod needs;
mod numbers;
mod place;
mod placing_laws;
mod relation;
mod session;
mod sight_laws;
mod sorts;
mod spelling;
pub mod standard_properties;
mod table_laws;
mod tale;
mod text;

pub use article::{Article, is_article};
pub use chain_laws::walks_tell_ends;
pub use declared::{Declared, Granted, ValueKind};
pub use direction::{DIRECTIONS, Direction, DirectionRow};
pub use exits::{Exits, Way};
pub use fault::{Fault, FaultCode};
pub use holders::have_ends;
pub use kind_laws::steps_tell_kinds;
pub use kinds::{
    KINDS, KindNo, KindRow, PROPERTIES, PropertyRow, ROOTS, built_in_parents, is_under,
    is_under_one,
};
pub use listed::Listed;
pub use literal::{is_literal, is_out_of_range, literal_in, literal_of};
pub use needs::{Needs, Slot};
pub use numbers::ObjNo;
pub use place::{Place, Rel};
pub use placing_laws::placing_keeps_its_rules;
pub use relation::relation_number;
pub use session::{Abandon, Ending, ReplyKind};
pub use sight_laws::{
    boxes_hide_and_keep, light_comes_from_inside, places_are_seen, the_dark_hides,
};
pub use sorts::{Sorts, are_well_placed, is_at, sorts_of};
pub use spelling::{is_spelled, lowered};
pub use table_laws::{directions_are_as_written, kinds_are_as_written, properties_are_as_written};
pub use tale::{Object, Tale};
pub use text::{MOST_BYTES, TextBytes};
