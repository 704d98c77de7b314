//! The arguments of `tracedesk-line` and their meaning, by `clap`'s statement of its grammar.
//!
//! `specs/CommandLine.antt` has the grammar and the meaning. Nothing is opened, and only the arguments are read.
#![tactic(auto)]

mod command_line;

pub use command_line::{LineCommand, Task, read_words};
