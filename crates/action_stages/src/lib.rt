//! Rulebooks are consulted and actions performed over a loaded story: each rule that its index doesn't pass over is asked in
//! the world of its moment, and what is tried or followed is one level deeper. Bodies of rules come to an end.
#![tactic(auto)]

mod acting;
mod aspects;
mod conditions;
mod does;
mod effects;
mod end_laws;
mod failing;
mod going;
mod needs;
mod parts;
mod passing;
mod playing;
mod stage;
mod stepping;
mod tale_laws;
mod work;

pub use end_laws::{
    each_step_is_nearer_the_end, runs_keep_their_outcome, sound_bodies_end, stories_lower_no_work,
};
pub use going::Stage;
pub use needs::needs_of;
pub use stage::{LEVELS, consult, count_turn, follow, holds, perform, say, set_scene};
pub use tale_laws::{games_alike_have_one_session, stories_are_played_as_their_tales};
