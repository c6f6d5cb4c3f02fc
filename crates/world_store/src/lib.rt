//! The world of a story in play: where objects are, what is true of them, what variables and scenes are. It is read,
//! changed where the rules of placing allow it, and copied; what is seen, touched and lit in it is told by walks.
#![tactic(auto)]

mod atlas;
mod bound;
mod changes;
mod columns;
mod describing;
mod ground;
mod laws;
mod marks;
mod remembering;
mod sight;
mod state;
mod view;
mod world;

pub use bound::Bound;
pub use laws::{
    changes_leave_others, directions_are_directions, marks_bring_back_the_world,
    tables_give_their_tales_game, the_dark_hides, what_is_let_go_of_changes_nothing,
    what_is_set_is_read, worlds_are_of_their_stories, worlds_are_whole,
};
pub use marks::Mark;
pub use play_meaning::WorldFault;
pub use world::World;
