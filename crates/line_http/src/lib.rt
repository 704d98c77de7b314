//! A line's routes, over the store of both lists.
//!
//! The desk's routes are answered as by `tracedesk serve`, and what a refused or faulty message adds to
//! the book is on disk before its answer goes out. On the line's own routes, what people decide, hold and
//! release becomes an entry, and a machine's state is answered by both lists alone.
#![tactic(auto)]

mod answers;
mod asked;
mod desk;
mod handler;
mod law;
mod routes;
mod sayings;

pub use handler::{LineHandler, serve};
pub use law::the_desk_is_served_alike;
pub use sayings::answer_saying;
