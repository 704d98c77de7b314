//! The arguments of the command line and their meaning, by `clap`'s statement of its grammar.
//!
//! `specs/CommandLine.antt` has the grammar and the meaning. Nothing is opened, and only the arguments are read.
#![tactic(auto)]

mod command_line;
mod words;

pub use command_line::{CommandLine, number_in, numeral, read_words, with_wanted};
pub use words::words_behind_name;
