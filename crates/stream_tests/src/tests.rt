//! Streams of lines and of requests, whole runs, and an owner without a store.

mod both_lists;
mod calls;
mod failing;
mod lengths;
mod memory;
mod messages;
mod programs;
mod sockets;
mod streams;
mod wires;

use desk_answers::{Answer, Owner};
use desk_types::{Stamped, Text};
use gateway_http::{Report, ReportedOwner, Unavailable};
use std::alloc::Global;

/// Answers each command that the desk is full, and finds no report.
#[derive(Drop)]
struct Full;

impl Owner for Full {
    ghost use Rattle.std.specs.Prelude.{⊤};

    ghost Stands = { λ _ _. ⊥ };

    ghost Ready = { λ _. ⊤ };

    ghost Trusts = { λ _. ⊤ };

    fn command(&mut self, _stamped: &Stamped) -> Answer {
        Answer::DeskFull
    }

    fn is_lawful(&self) {}
}

impl ReportedOwner for Full {
    ghost use Rattle.std.specs.Prelude.{None};

    ghost reports = { λ _ _. None };

    fn report(&mut self, _alloc: Global, _asked: Report) -> Result<Option<Text>, Unavailable> {
        Ok(None)
    }
}
