//! Both lists of a line's file that nobody serves: the history of accepted commands, and the book.
#![tactic(auto)]

mod fault;
mod file;
mod lists;
mod store;

pub use fault::{ListFault, UNAVAILABLE};
pub use file::read_line;
pub use store::Line;
