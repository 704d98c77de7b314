//! Reels: their pieces, and how long they may still be out of their bags.
#![tactic(auto)]

mod reel;

pub use reel::{Reel, Usage};
