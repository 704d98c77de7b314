//! The plain desk: it stores the accepted entries and answers by searching them.
//!
//! Entries come oldest first, each with its takes. Each search returns what the definition says for
//! that history.
#![tactic(auto)]

mod alternates;
mod floor_life;
mod free;
mod mounts;
mod parts;
mod pieces;
mod plain;
mod searched;
mod setup;
mod slots;
mod tapes;
mod totals;
mod views;
mod work;

pub use plain::PlainDesk;
