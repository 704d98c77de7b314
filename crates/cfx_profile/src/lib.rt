//! Reading a message from its bytes.
//!
//! A message is a JSON object (RFC 8259) with an envelope after IPC-CFX; five members of the
//! envelope are read. The names of messages and their bodies are this project's own profile: see
//! `specs/Bodies.antt`.
#![tactic(auto)]

mod answer;
mod bodies;
mod fault;
mod forms;
mod lists;
mod member;
mod message;
mod minute;
mod skipped;
mod word;

pub use answer::{ignored_text, unavailable_text};
pub use fault::MessageFault;
pub use member::Member;
pub use message::{Said, read_message};
pub use minute::{MinuteFault, read_minute};
pub use skipped::other_members_are_skipped;
pub use word::words_are_read;
