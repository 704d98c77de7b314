//! What an accepted message says in members that the profile skips: attributes of a reel, and the
//! reels that a machine names.
//!
//! A server calls it for each accepted receipt and install. Each finding makes an entry of the book.
#![tactic(auto)]

mod body;
mod comparison;
mod finding;
mod law;
mod message;
mod named_reels;
mod receipt;

pub use finding::Finding;
pub use law::{agreement_makes_no_finding, findings_are_plain};
pub use message::accepted;
pub use named_reels::{MachineReels, machine_reels};
pub use receipt::{AttributeName, attributes};
