//! The store of a line: a desk whose accepted commands are kept in tables.
#![tactic(auto)]

mod beside;
mod fault;
mod opening;
mod owner;
mod settling;
mod store;
mod unavailable;

pub use beside::others_may_be_beside;
pub use desk_answers::Answer;
pub use fault::OpenFault;
pub use line_replay::StateTable;
pub use line_traces::PlacedRows;
pub use store::{LineStore, Verdict};
pub use unavailable::Unavailable;
