//! Requests, answered by a desk in a file.

ghost use Rattle.std.specs.Prelude.{◌≡◌, ◌≤◌, ◌||◌, None, Some};
ghost use Rattle.desk_types.specs.declared.limits.TheConstants.{MOST_ENTRIES};
ghost use Rattle.gateway_http.specs.Reports.{report_of};
ghost use Rattle.desk_commands.specs.Clients.{ServesAt};
ghost use Rattle.desk_file.specs.Opened.{has_opened};
ghost use Rattle.desk_commands.specs.Closed.{is_left_open};
ghost use Rattle.desk_commands.specs.Ends.{ReportEnds, ServingEnds};
ghost use Rattle.desk_commands.specs.OpenRuns.{AnswersReport};
ghost use Rattle.desk_commands.specs.Told.{TellsLine};
ghost use Rattle.desk_commands.specs.Wires.{HaveFewFailures};
ghost use Rattle.desk_commands.specs.Runs.{HasNoDesk, LeavesDesk, Refuses, RunsOn, ServesEach};

use crate::clients::Clients;
use crate::left::ToClose;
use crate::port::{serve_owner, tell_report};
use crate::refusal::tell_refusal;
use desk_file::{FileOpener, open_desk};
use desk_types::Wire;
use feeder_state::StateDesk;
use sqlite::{FileFrom, Start};
use std::io::Write;

/// Serves this number of connections on a port by the desk in a file, which is made if missing. Returns the exit
/// status, and the desk or the refused file.
pub fn serve_in_file<T: Start, C: Clients, W: Write, E: Write>(
    rt: &HostRuntime,
    file: &str,
    opener: &mut FileOpener<T>,
    clients: &mut C,
    port: u16,
    connections: u32,
    greatest: u32,
    output: &mut Wire<W>,
    errors: &mut Wire<E>,
) -> (u8, ToClose<FileFrom<T>>)
    // To serve nobody is a fault of the command line, which is read before.
    requires some { 1 ≤ connections }
    requires range { (1 ≤ greatest) × (greatest ≤ MOST_ENTRIES) }
    requires few { HaveFewFailures output.old errors.old }
    // Each way to end; where the desk was refused no client was waited for.
    ensures ends { ServingEnds W.contents E.contents output.old output.new errors.old errors.new
        connections (ServesAt C.Saw clients.old clients.new port)
        (λ es. RunsOn T.Start (Some greatest) result.1 (ServesEach es))
        (HasNoDesk (Refuses T.Start (Some greatest) result.1) ⊥
        (TellsLine E.contents errors.old errors.new) × (clients.new ≡ clients.old)) result.0 }
    ensures left { LeavesDesk result.1 }
    ensures told { has_opened opener.new ≡ (is_left_open result.1 || has_opened opener.old) }
{
    match open_desk::<T, StateDesk>(rt, file, opener, Some(greatest)) {
        Ok(store) => {
            let mut store = store;
            let status = serve_owner(
                rt.alloc(),
                clients,
                port,
                connections,
                output,
                errors,
                &mut store,
            );
            (status, ToClose::Desk(store))
        }
        Err(refusal) => (
            tell_refusal(rt.alloc(), &refusal.fault, errors),
            ToClose::Refused(refusal),
        ),
    }
}

/// Prints the answer to a GET of a target by the desk in a file. Returns the exit status, and the desk or the refused
/// file.
pub fn report_in_file<T: Start, W: Write, E: Write>(
    rt: &HostRuntime,
    file: &str,
    opener: &mut FileOpener<T>,
    target: &str,
    output: &mut Wire<W>,
    errors: &mut Wire<E>,
) -> (u8, ToClose<FileFrom<T>>)
    requires few { HaveFewFailures output.old errors.old }
    // The answer is a GET's, byte for byte, of the history that the file holds.
    ensures ends { ReportEnds W.contents E.contents output.old output.new errors.old errors.new
        (λ answer. RunsOn T.Start None result.1 (AnswersReport report_of target.now answer))
        (HasNoDesk (Refuses T.Start None result.1) ⊥
        (TellsLine E.contents errors.old errors.new)) result.0 }
    ensures left { LeavesDesk result.1 }
    ensures told { has_opened opener.new ≡ (is_left_open result.1 || has_opened opener.old) }
{
    match open_desk::<T, StateDesk>(rt, file, opener, None) {
        Ok(store) => {
            let mut store = store;
            let status = tell_report(rt.alloc(), target, output, errors, &mut store);
            (status, ToClose::Desk(store))
        }
        Err(refusal) => (
            tell_refusal(rt.alloc(), &refusal.fault, errors),
            ToClose::Refused(refusal),
        ),
    }
}
