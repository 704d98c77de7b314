//! Placed pieces that may be from another reel than the history has.
//!
//! A piece is in doubt by an entry of the book, by a message that came late, or near a splice. Each
//! source has a function of its own, which goes through the commands, the book and the pieces once.
#![tactic(auto)]

mod answer;
mod asking;
mod best;
mod comparing;
mod entries;
mod handling;
mod late;
mod law;
mod mark;
mod marking;
mod minutes;
mod order;
mod reason;
mod runs;
mod splices;

pub use answer::doubtful;
pub use law::nothing_is_doubted;
pub use order::{lists_rise, notes_rise, pieces_rise};
pub use reason::{Doubt, Reason};
