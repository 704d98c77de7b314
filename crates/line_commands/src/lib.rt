//! The commands of `tracedesk-line` that serve a file, or write into it.
#![tactic(auto)]

mod left;
mod lists;
mod making;
mod noting;
mod serving;

pub use left::{LineLeft, close_line};
pub use making::make_in_file;
pub use noting::note_in_file;
pub use serving::serve_in_file;
