//! What a chain of files needs of one store: how its desk was begun, the desks of its first commands and of all, and the
//! pieces that a question is about.
#![tactic(auto)]

mod begin;
mod first;
mod looking;

pub use begin::{Begin, begin_of};
pub use first::first_desk;
pub use looking::{Looked, look};
