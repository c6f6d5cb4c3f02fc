//! The player of a story: it reads typed lines, changes the world, takes turns back and prints the transcript.
#![tactic(auto)]

mod all_things;
mod asking;
mod commands;
mod deed;
mod fault;
mod in_play;
mod letting_go;
mod line_text;
mod playing;
mod reading;
mod reply;
mod session;
mod several;
mod telling;
mod texts;
mod trial;
mod turns;
mod typed;
mod watched;

pub use fault::{RunFault, StartFault};
pub use in_play::InPlay;
pub use playing::run;
pub use reply::Reply;
pub use session::Session;
pub use watched::Watched;
