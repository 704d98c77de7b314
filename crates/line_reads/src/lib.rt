//! The commands of `tracedesk-line` that read a file that nobody serves.
#![tactic(auto)]

mod audit;
mod book;
mod doubts;
mod fault;
mod opening;
mod state;
mod texts;

pub use audit::audit_lists;
pub use book::tell_book;
pub use doubts::tell_doubts;
pub use fault::tell_fault;
pub use state::tell_state;
pub use texts::{tell_counts, tell_json};
