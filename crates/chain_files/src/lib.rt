//! A recall over the files of a line, opened one after the other: whether they are a chain, and what is in them.
#![tactic(auto)]

mod chain;
mod closed;
mod compared;
mod kept;
mod listed;
mod marks;
mod opener;
mod telling;
mod texts;
mod two_files;
mod whole;
mod words;

pub use chain::{Fault, Stopped, recall_files};
pub use closed::ClosedChain;
pub use marks::{Links, Wanted};
pub use opener::{Opener, SystemFiles};
pub use whole::program;
