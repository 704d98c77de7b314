//! A stream is answered, or memory was refused. What was refused can be sent again.

use super::messages::{lines_of, requests_of};
use super::streams::{Form, Ran, run};
use super::wires::{Sink, Source};
use std::alloc::Global;
use std::process::Abort;
use std::test::Fail;

/// A command, and a message that has none.
const MESSAGES: &[(&str, &str)] = &[
    ("PartDefined", r#"{"PartNumber":"P"}"#),
    ("PartDefined", "{}"),
];

fn answered<'a>(alloc: Global, form: Form, text: &'a [u8]) -> Ran<'a> {
    run(
        alloc,
        form,
        Source::new(text, usize::MAX, 0),
        Sink::new(alloc),
    )
}

/// Answers a stream three times. Memory is refused in one of them at most, so two are alike and whole. The other one
/// ends with a fault, or answers each message too. A connection may end with the answer that memory is refused.
fn is_answered(rt: &impl Abort, alloc: Global, form: Form, text: &[u8]) {
    let one = answered(alloc, form, text);
    let two = answered(alloc, form, text);
    let three = answered(alloc, form, text);
    let is_first = one.output.taken == two.output.taken || one.output.taken == three.output.taken;
    let whole = if is_first { &one } else { &two };
    assert!(rt; is_first || two.output.taken == three.output.taken);
    assert!(rt; whole.ended.is_ok() && form.answers_in(whole.output.taken.as_slice()) == 2);
    let least = match form {
        Form::Lines => 2,
        Form::Requests => 1,
    };
    for ran in [&one, &two, &three] {
        let answers = form.answers_in(ran.output.taken.as_slice());
        assert!(rt; ran.ended.is_err() || answers >= least);
    }
}

#[test]
fn a_stream_is_answered_or_memory_was_refused(rt: HostRuntime) -> Result<(), Fail> {
    let lines = lines_of(rt.alloc(), MESSAGES)?;
    is_answered(&rt, rt.alloc(), Form::Lines, lines.as_slice());
    let requests = requests_of(rt.alloc(), MESSAGES)?;
    is_answered(&rt, rt.alloc(), Form::Requests, requests.as_slice());
    Ok(())
}
