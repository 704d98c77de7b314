//! The pieces in doubt by both lists of a line's file that nobody serves.
#![tactic(auto)]

mod adding;
mod commands;
mod doubts;
mod entries;
mod file;
mod store;

pub use file::read_doubts;
