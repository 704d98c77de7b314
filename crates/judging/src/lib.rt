//! Judging of commands, shared by all desks: the refusal, the takes and the reply, from the facts
//! that a desk provides.
#![tactic(auto)]

mod counts;
pub mod facts;
pub mod fronts;
mod installs;
mod judging;
pub mod lives;
mod loads;
mod placing;
mod refusals;
mod scraps;
pub mod sets;
mod setup;
mod sheets;
mod starts;
mod takes;

pub use facts::Facts;
pub use judging::judge;
