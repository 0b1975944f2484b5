//! The words of a command line, and the command that they are.
#![tactic(auto)]

mod command;
mod number;
mod said;

pub use command::{Command, WordsFault, read_words};
