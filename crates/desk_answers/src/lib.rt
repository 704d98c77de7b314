//! Answers to commands, with a number and as a text: from judging the command, or from an earlier
//! command with the same UniqueID. And how answers get in and out: a read buffer, whole writes, counts
//! of answers, and faults.
#![tactic(auto)]

mod answer;
mod block;
mod law;
mod owner;
mod sending;
mod serving;

pub use answer::{Answer, accepted_text};
pub use block::{Block, ReadFault};
pub use law::same_messages_are_equal;
pub use owner::Owner;
pub use sending::{WriteFailed, send, send_line};
pub use serving::{ServeFault, Served};
