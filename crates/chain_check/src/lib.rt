//! Whether a new desk is alike to the old desk that it follows, whether desk files are a chain, and the
//! rows of what is asked of them.
#![tactic(auto)]

mod carried;
mod chain;
mod check;
mod difference;
mod law;
mod question;
mod rows;
mod sheets;
mod shown;
mod tables;
mod tapes;
mod views;

pub use chain::Chain;
pub use check::first_difference;
pub use difference::Difference;
pub use law::{gaps_are_refused, recalls_find_all_boards};
pub use question::{Question, Subject};
pub use rows::{ChainFile, begin_rows, end_rows, write_rows};
pub use shown::ShownDifference;
