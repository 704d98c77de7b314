//! The book of a line: what the desk didn't accept, what contradicts it, and what people decided.
//!
//! A line's truth is two lists: the history of accepted commands, and the book. Each entry of the
//! book is placed at a point of the history. Which entries are open, and which machines may work,
//! follows from the two lists, so nothing is closed by a second write.
#![tactic(auto)]

mod cause;
mod closing;
mod guard;
mod holds;
mod kind;
mod law;
mod note;
mod reading;
mod restored;
mod row;
mod setup;
mod tapes;

pub use cause::Cause;
pub use guard::Guard;
pub use law::{
    a_refusal_stops, closed_stays_closed, doubt_is_settled, each_red_has_a_way_out,
    go_means_verified,
};
pub use note::{Matter, Note, Stock};
pub use reading::{Reading, RowFault};
pub use restored::restore;
pub use row::BookRow;
