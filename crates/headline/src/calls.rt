//! The program's calls, each with its effect on the owner's history.
//!
//! The body of each function is the call itself, so its clause follows from the call's contract.

ghost use Rattle.std.specs.Prelude.{◌^◌, ◌<◌, Some};
ghost use Rattle.desk_types.specs.Wire.{inner_of, reads_of, failures_of};
ghost use Rattle.http_stream.specs.Answers.{response_told};
ghost use Rattle.headline.specs.Calls.{CallsOnce};
ghost use Rattle.headline.specs.Calls.Call.{fed, connected, commanded, asked, reported, imported};

use desk_answers::{Answer, ServeFault, Served, WriteFailed};
use desk_types::{Stamped, Text, Wire};
use gateway_http::{Report, ReportedOwner, Unavailable};
use http_stream::Response;
use imports::Import;
use std::alloc::Global;
use std::io::{Read, Write};

/// Calls `feed`.
pub fn feed<R: Read, W: Write, L: ReportedOwner>(
    alloc: Global,
    input: &mut Wire<R>,
    output: &mut Wire<W>,
    owner: &mut L,
) -> Result<Served, ServeFault>
    // A call adds at most one failure and `MOST_READS` reads, so the counts can't overflow.
    requires read_failures { failures_of input.old < 2 ^ 63 }
    requires reads { reads_of input.old < 2 ^ 63 }
    requires write_failures { failures_of output.old < 2 ^ 63 }
    requires ready { L.Ready owner.old }
    // What `feed` promises, in the one form of all calls, so that any other may follow.
    ensures { CallsOnce L.reports L.Stands L.Trusts owner.old
        (fed (R.remaining (inner_of input.old)) (W.contents (inner_of output.old))
        (W.contents (inner_of output.new)) result) owner.new }
{
    desk_feed::feed(alloc, input, output, owner)
}

/// Calls `serve` for a connection.
pub fn serve<R: Read, W: Write, L: ReportedOwner>(
    alloc: Global,
    input: &mut Wire<R>,
    output: &mut Wire<W>,
    owner: &mut L,
) -> Result<Served, ServeFault>
    requires read_failures { failures_of input.old < 2 ^ 63 }
    requires reads { reads_of input.old < 2 ^ 63 }
    requires write_failures { failures_of output.old < 2 ^ 63 }
    requires ready { L.Ready owner.old }
    ensures { CallsOnce L.reports L.Stands L.Trusts owner.old
        (connected (R.remaining (inner_of input.old)) (R.remaining (inner_of input.new))
        (W.contents (inner_of output.old)) (W.contents (inner_of output.new)) result)
        owner.new }
{
    gateway_http::serve(alloc, input, output, owner)
}

/// Calls `command`.
pub fn command<L: ReportedOwner>(owner: &mut L, stamped: &Stamped) -> Answer
    requires ready { L.Ready owner.old }
    ensures { CallsOnce L.reports L.Stands L.Trusts owner.old (commanded stamped.now result)
        owner.new }
{
    owner.command(stamped)
}

/// Calls `ask`: a GET without a connection.
pub fn ask<L: ReportedOwner>(alloc: Global, target: &[u8], owner: &mut L) -> Response
    requires ready { L.Ready owner.old }
    ensures { CallsOnce L.reports L.Stands L.Trusts owner.old
        (asked target.now (response_told result)) owner.new }
{
    gateway_http::ask(alloc, target, owner)
}

/// Calls `report`.
pub fn report<L: ReportedOwner>(
    alloc: Global,
    owner: &mut L,
    asked: Report,
) -> Result<Option<Text>, Unavailable>
    requires ready { L.Ready owner.old }
    ensures { CallsOnce L.reports L.Stands L.Trusts owner.old (reported asked result) owner.new }
{
    owner.report(alloc, asked)
}

/// Calls `serve_import` with a file's bytes.
pub fn import<W: Write, L: ReportedOwner>(
    alloc: Global,
    output: &mut Wire<W>,
    owner: &mut L,
    import: &Import,
    bytes: &[u8],
) -> Result<bool, WriteFailed>
    requires write_failures { failures_of output.old < 2 ^ 63 }
    requires ready { L.Ready owner.old }
    ensures { CallsOnce L.reports L.Stands L.Trusts owner.old
        (imported import.now (Some bytes.now) (W.contents (inner_of output.old))
        (W.contents (inner_of output.new)) result) owner.new }
{
    desk_feed::serve_import(alloc, output, owner, import, bytes)
}
