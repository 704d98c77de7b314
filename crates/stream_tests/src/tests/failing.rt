//! Each read and each write of a stream fails once. A failure is reported at once: the reader or writer would continue,
//! so a later call would show. The stream is sent to its desk again, and acts once.

use super::messages::{FIRST_RUN, SPLICE, lines_of, requests_of};
use super::streams::{Form, SentTwice, sent_twice};
use super::wires::{Failure, Sink, Source};
use desk_answers::{ServeFault, Served};
use std::alloc::Global;
use std::process::Abort;
use std::test::Fail;

/// The end of a stream whose answers so far all say Accepted.
fn accepted(answered: u64) -> Served {
    Served {
        answered,
        refused: 0,
    }
}

/// After a failed read the messages before it are answered, and no further read is made.
fn each_read_fails(
    rt: &impl Abort,
    alloc: Global,
    form: Form,
    text: &[u8],
    most: usize,
) -> Result<(), Fail> {
    let source = Source::new(text, most, 0);
    let SentTwice {
        first: whole,
        again,
    } = sent_twice(alloc, form, text, source, Sink::new(alloc))?;
    let answers = whole.output.taken.as_slice();
    assert!(rt; whole.ended == Ok(accepted(form.messages_in(text))));
    assert!(rt; again.output.taken.as_slice() == answers);
    for n in 1..=whole.reads {
        let source = Source::new(text, most, n);
        let SentTwice { first, again } = sent_twice(alloc, form, text, source, Sink::new(alloc))?;
        let before = text.len() - first.input.left.len().min(text.len());
        let answered = form.messages_in(&text[..before]);
        let wanted = Err(ServeFault::Read(accepted(answered)));
        assert!(rt; first.ended == wanted, "read {n} of {most} bytes");
        assert_eq!(rt; (first.reads, first.input.calls), (n, n));
        assert_eq!(rt; form.answers_in(first.output.taken.as_slice()), answered);
        assert!(rt; answers.starts_with(first.output.taken.as_slice()));
        assert!(rt;
            again.output.taken.as_slice() == answers,
            "sent again after read {n}"
        );
    }
    Ok(())
}

/// After a failed write the answers before it are complete, and no further write is made.
fn each_write_fails(
    rt: &impl Abort,
    alloc: Global,
    form: Form,
    text: &[u8],
    (most, failure): (usize, Failure),
) -> Result<(), Fail> {
    let source = Source::new(text, usize::MAX, 0);
    let sink = Sink::failing(alloc, most, 0, failure);
    let whole = sent_twice(alloc, form, text, source, sink)?.first;
    let answers = whole.output.taken.as_slice();
    for n in 1..=whole.output.calls {
        let source = Source::new(text, usize::MAX, 0);
        let sink = Sink::failing(alloc, most, n, failure);
        let SentTwice { first, again } = sent_twice(alloc, form, text, source, sink)?;
        let taken = first.output.taken.as_slice();
        let wanted = Err(ServeFault::Write(accepted(form.answers_in(taken))));
        assert!(rt; first.ended == wanted, "write {n} of {most} bytes");
        assert_eq!(rt; first.output.calls, n);
        assert!(rt; answers.starts_with(taken));
        assert!(rt;
            again.output.taken.as_slice() == answers,
            "sent again after write {n}"
        );
    }
    Ok(())
}

fn each_call_fails(
    rt: &impl Abort,
    alloc: Global,
    form: Form,
    text: &[u8],
    few: usize,
) -> Result<(), Fail> {
    for most in [few, usize::MAX] {
        each_read_fails(rt, alloc, form, text, most)?;
        each_write_fails(rt, alloc, form, text, (most, Failure::Told))?;
        each_write_fails(rt, alloc, form, text, (most, Failure::TakesNothing))?;
    }
    Ok(())
}

#[test]
fn each_failed_call_of_a_feed_is_reported(rt: HostRuntime) -> Result<(), Fail> {
    for case in [FIRST_RUN, SPLICE] {
        let text = lines_of(rt.alloc(), case)?;
        each_call_fails(&rt, rt.alloc(), Form::Lines, text.as_slice(), 60)?;
    }
    Ok(())
}

#[test]
fn each_failed_call_of_a_connection_is_reported(rt: HostRuntime) -> Result<(), Fail> {
    let text = requests_of(rt.alloc(), FIRST_RUN)?;
    each_call_fails(&rt, rt.alloc(), Form::Requests, text.as_slice(), 60)
}
