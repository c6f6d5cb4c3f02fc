//! What a typed command means, over a grammar of lines and the words that objects go by (*Writing with Inform*, chapter 17).
//! A command is read without memory, except for the question that is asked where a phrase of it may mean several things.
#![tactic(auto)]

mod all;
mod answer;
mod candidates;
mod command;
mod command_scan;
mod commands;
mod cutting;
mod cutting_laws;
mod filling;
mod fitting;
mod laws;
mod lines;
mod listing;
mod next_token;
mod question;
mod read;
mod reading;
mod searching;
mod settling;
mod typed_command;
mod unread;
mod words;

pub use command_scan::CommandScan;
pub use commands::Commands;
pub use cutting::{Parts, Pieces, split};
pub use cutting_laws::{lines_are_cut, scans_tell_commands};
pub use laws::{all_is_read, one_reading, plain_lines_are_read};
pub use question::{Objects, Question};
pub use read::{narrow, read_command};
pub use reading::{Reading, Said};
pub use typed_command::Command;
