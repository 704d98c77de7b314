//! A line's file with both lists: the history of accepted commands, and the book. The store says which
//! machines may work, by the two lists alone.
#![tactic(auto)]

mod fault;
mod restoring;
mod store;
mod texts;

pub use fault::NoteFault;
pub use restoring::{Restored, advance, command_of, restore, wrong_after};
pub use store::BookStore;
