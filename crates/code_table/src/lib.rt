//! A story's codes together: each is named once, in turn, and verified for the use for which it is named.
#![tactic(auto)]

mod adding;
mod alone;
mod coding;
mod emitting;
mod fault;
mod laws;
mod naming;
mod strings;
mod table;

pub use alone::{rule_is_long, scene_is_long, text_is_long};
pub use emitting::code_table;
pub use fault::TableFault;
pub use laws::{
    bodies_are_done, conditions_are_answered, descriptions_are_said, heads_are_for_their_uses,
    never_table_and_none, one_table, origins_are_tables, strings_are_in_order, table_or_none,
    tables_are_sound_together, tables_are_told,
};
pub use strings::strings_counted;
pub use table::table_of;
