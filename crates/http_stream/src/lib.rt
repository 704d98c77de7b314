//! HTTP for any reader and writer.
//!
//! `serve` cuts the input into requests, passes each whole one to a `Handler`, and writes the
//! answers in order. The definitions are in `specs/`: `Heads` and `Cut` for the input, `Answers`
//! for the output, `Stream` for a whole connection. The sizes of reads don't matter.
#![tactic(auto)]

mod answer;
mod body;
mod front;
mod head;
mod law;
mod portion;
mod reply;
mod response;
mod serving;

pub use head::LengthFault;
pub use law::{bytes_decide, repeats_act_once};
pub use response::{Allow, Body, MediaType, Response, Status};
pub use serving::{Handler, serve};
