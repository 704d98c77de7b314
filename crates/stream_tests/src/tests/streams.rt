//! A stream, answered by a desk in memory, or by an owner without a store.

use super::Full;
use super::wires::{Sink, Source};
use desk_answers::{ServeFault, Served};
use desk_feed::feed;
use desk_file::in_memory;
use desk_types::Wire;
use feeder_state::StateDesk;
use gateway_http::{ReportedOwner, serve};
use std::alloc::Global;
use std::test::Fail;

/// The form of a stream: lines, or the requests of a connection.
#[derive(Clone, Copy)]
pub enum Form {
    Lines,
    Requests,
}

impl Form {
    /// Returns how many whole messages are in the front of a stream. A message ends with a line feed, or in a request
    /// with a tab.
    pub fn messages_in(&self, bytes: &[u8]) -> u64 {
        count_of(
            match self {
                Form::Lines => b'\n',
                Form::Requests => b'\t',
            },
            bytes,
        )
    }

    /// Returns how many whole answers are in the front of the output. An answer ends with a line feed, or to a request
    /// with its only brace.
    pub fn answers_in(&self, bytes: &[u8]) -> u64 {
        count_of(
            match self {
                Form::Lines => b'\n',
                Form::Requests => b'}',
            },
            bytes,
        )
    }
}

fn count_of(end: u8, bytes: &[u8]) -> u64 {
    bytes.iter().filter(|it| **it == end).count() as u64
}

/// A stream's end, with its reader and its writer.
#[derive(Drop)]
pub struct Ran<'a> {
    pub input: Source<'a>,
    pub output: Sink,
    pub reads: u64,
    pub ended: Result<Served, ServeFault>,
}

/// Answers a stream by this owner, with this reader and this writer.
fn answered<'a, L: ReportedOwner>(
    alloc: Global,
    form: Form,
    source: Source<'a>,
    sink: Sink,
    owner: &mut L,
) -> Ran<'a>
    requires { L.Ready owner.old }
    ensures { L.Ready owner.new }
{
    let (mut input, mut output) = (Wire::new(source), Wire::new(sink));
    let ended = match form {
        Form::Lines => feed(alloc, &mut input, &mut output, owner),
        Form::Requests => serve(alloc, &mut input, &mut output, owner),
    };
    let reads = input.reads();
    Ran {
        input: input.into_inner(),
        output: output.into_inner(),
        reads,
        ended,
    }
}

/// Answers a stream by an owner without a store.
pub fn run<'a>(alloc: Global, form: Form, source: Source<'a>, sink: Sink) -> Ran<'a> {
    answered(alloc, form, source, sink, &mut Full)
}

/// A stream that was answered by a new desk in memory, and the same text sent to the desk again, by a reader and a
/// writer that never fail.
#[derive(Drop)]
pub struct SentTwice<'a> {
    pub first: Ran<'a>,
    pub again: Ran<'a>,
}

/// Sends a stream to a new desk in memory, with this reader and this writer, and then its text again.
pub fn sent_twice<'a>(
    alloc: Global,
    form: Form,
    text: &'a [u8],
    source: Source<'a>,
    sink: Sink,
) -> Result<SentTwice<'a>, Fail> {
    match in_memory::<StateDesk>(alloc, 1_000) {
        Ok(desk) => {
            let mut desk = desk;
            let twice = answered_twice(alloc, form, text, source, sink, &mut desk);
            // A drop would need a proof of how each part of the store is dropped.
            let _ = desk.into_connection().close();
            Ok(twice)
        }
        Err(_) => Err(Fail::from("no desk")),
    }
}

fn answered_twice<'a, L: ReportedOwner>(
    alloc: Global,
    form: Form,
    text: &'a [u8],
    source: Source<'a>,
    sink: Sink,
    owner: &mut L,
) -> SentTwice<'a>
    requires { L.Ready owner.old }
    ensures { L.Ready owner.new }
{
    let first = answered(alloc, form, source, sink, owner);
    let whole = Source::new(text, usize::MAX, 0);
    let again = answered(alloc, form, whole, Sink::new(alloc), owner);
    SentTwice { first, again }
}
