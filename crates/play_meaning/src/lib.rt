//! What phrases, rules and actions mean: a story's rulebooks consulted rule by rule over the world's relations.
//! This crate holds definitions and what follows from them, and what code that does it stands on: a ground, which is read
//! and changed.
#![tactic(auto)]

mod action;
mod change;
mod code_laws;
mod deed_laws;
mod effect_laws;
mod fault;
mod game_laws;
mod ground;
mod instruction;
mod laws;
mod naming;
mod operand;
mod order_laws;
mod outcome;
mod phrase_laws;
mod scene;
mod sight_laws;
pub mod standard_actions;
pub mod standard_books;
mod table_laws;
pub mod tree;
mod way;
mod work_laws;

pub use action::{ActNo, ActionNow};
pub use change::{Change, make};
pub use code_laws::{
    bodies_run_among_codes, bodies_run_as_they_mean, runs_stand_where_codes_say, sound_codes_run,
    tests_mean_among_codes, tests_mean_their_conditions,
};
pub use deed_laws::{
    going_is_one_deed, looking_is_one_deed, plain_scripts_tell_plain_stories, plain_turns_are_deeds,
};
pub use effect_laws::effects_are_what_rules_do;
pub use fault::WorldFault;
pub use game_laws::{
    abandoned_commands_change_nothing, agreeing_games_are_one, decisions_end_consultations,
    lines_of_one_command_are_it, undo_brings_back_the_world,
};
pub use ground::{Ground, GroundMut};
pub use instruction::{Asked, Instruction};
pub use laws::{
    actions_pass_their_stages, commands_are_read, light_shows_things, lines_hold_several_commands,
    rules_decide, rules_stand_in_order, scenes_and_stories_end, texts_are_said, things_are_handled,
    turns_are_undone, ways_and_doors_are_gone_through, work_has_an_end,
};
pub use naming::Naming;
pub use operand::{Counts, Sort, Use};
pub use order_laws::{rulebooks_are_in_order, rules_passed_over_are_false};
pub use outcome::{Flow, Outcome};
pub use phrase_laws::{
    bodies_are_done, conditions_hold, names_and_numbers_are_said, phrases_change_the_world,
};
pub use scene::SceneNow;
pub use sight_laws::{placing_is_by_chains, sight_is_by_chains};
pub use table_laws::books_are_as_written;
pub use way::{OpenLoop, Way};
pub use work_laws::work_is_bounded;
