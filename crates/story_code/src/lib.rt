//! The codes of a story: how their bytes are read and written, and whether a code is sound.
//!
//! What each instruction goes through, from its first byte to what it does, is many small functions, which are marked
//! `inline(always)`: as one function they decide once what to do, and run a code in half the time.
#![tactic(auto)]

mod argument;
mod asking;
mod behind;
mod body;
mod came;
mod changing;
mod decoding;
mod describing;
mod effect;
mod emit;
mod emitting;
mod encoding;
mod fetching;
mod fitting;
mod known;
mod laws;
mod listing;
mod looping;
mod named;
mod naming;
mod number;
mod operands;
mod plain;
mod reading;
mod row;
mod short_laws;
mod sizes;
mod state;
mod step;
mod telling;
mod testing;
mod together;
mod turning;
mod verified;
mod verifying;

pub use asking::{door_beyond, encloses, holder_by, is_held, is_some_held, room_beyond};
pub use body::{MOST_WORK, step_plain};
pub use changing::unless_refused;
pub use decoding::{first, front};
pub use describing::description;
pub use emit::{EmitFault, body_codes, condition_codes, description_codes};
pub use encoding::spell;
pub use fitting::{body_fits, condition_fits, description_fits};
pub use laws::{
    descriptions_say_their_texts, emitted_bytes_are_sound, emitted_codes_are_sound, one_code,
    rows_of_fitting, runs_begin_standing, verified_code_is_sound,
};
pub use naming::{say_listed, say_name};
pub use plain::read_plain;
pub use row::size;
pub use short_laws::{rows_of_what_is_short, what_is_short_fits, what_words_mean_is_joined_so};
pub use sizes::Sizes;
pub use state::RunState;
pub use step::Step;
pub use together::{are_described_by, are_sound_together, is_body};
pub use verified::Verified;
pub use verifying::verify;
