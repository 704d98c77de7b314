//! The desk that keeps the current state: rows and indexes, and no list of commands.
#![tactic(auto)]

mod desk;
mod floor;
mod floor_facts;
mod free;
mod groups;
mod placed;
mod resting;
mod same_state;
mod sets;
mod setup;
mod tape;
mod tapes;
mod views;
mod work;

pub use desk::StateDesk;
pub use same_state::same_state_same_replies;
