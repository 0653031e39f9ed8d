//! The words of the program's command line, by `clap`.
#![tactic(auto)]

mod command;
mod command_line;
mod commands;
mod ids;
mod values;
mod word_stop;
mod words;

pub use command::Command;
pub use word_stop::WordStop;
pub use words::read_words;
