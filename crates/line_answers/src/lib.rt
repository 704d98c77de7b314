//! The texts of a line's own routes: what they answer, and what they read.
//!
//! A server calls it with the desk, the guard of the book, and rows of the table `book`.
#![tactic(auto)]

mod bodies;
mod book;
mod cause;
mod counts;
mod csv_text;
mod fault;
mod kind;
mod limits;
mod member;
mod noted;
mod object;
mod state;

pub use bodies::{read_decision, read_hold, read_release};
pub use book::{Wanted, book_text};
pub use counts::{Counts, counts_text};
pub use fault::LineFault;
pub use kind::{Kind, not_found_text};
pub use limits::LONGEST_SAYING;
pub use member::Member;
pub use noted::{Noted, noted_text};
pub use state::{Point, causes_text, state_text};
