//! The lines of an input, answered.

ghost use Rattle.std.specs.Prelude.{◌+◌, ◌≤◌};
ghost use Rattle.desk_types.specs.Wire.{reads_of};
ghost use Rattle.desk_types.specs.declared.limits.TheConstants.{MOST_READS};
ghost use Rattle.desk_answers.specs.Ledger.{ForLists};
ghost use Rattle.desk_commands.specs.Ends.{FeedEnds};
ghost use Rattle.desk_commands.specs.Wires.{HaveFewCounts};

use crate::exit::{Exit, tell_failure};
use desk_answers::Owner;
use desk_feed::feed;
use desk_types::Wire;
use std::alloc::Global;
use std::io::{Read, Write};

/// Answers the lines of the input by an owner of a history. Returns the exit status.
pub fn feed_lines<R: Read, W: Write, E: Write, L: Owner>(
    alloc: Global,
    input: &mut Wire<R>,
    output: &mut Wire<W>,
    errors: &mut Wire<E>,
    owner: &mut L,
) -> u8
    requires few { HaveFewCounts input.old output.old errors.old }
    requires ready { L.Ready owner.old }
    // The owner can be asked on, whatever went wrong with the lines.
    ensures ready { L.Ready owner.new }
    // A disk that has lied is never trusted again: nothing that is said of an honest one holds.
    ensures trusts { L.Trusts owner.new → L.Trusts owner.old }
    ensures ends { FeedEnds R.remaining W.contents E.contents
        input.old input.new output.old output.new errors.old errors.new
        (ForLists L.Stands L.Trusts owner.old owner.new) ⊥ result }
    ensures few_reads { reads_of input.new ≤ reads_of input.old + MOST_READS }
{
    match feed(alloc, input, output, owner) {
        Ok(served) if served.refused == 0 => Exit::Done as u8,
        Ok(_) => Exit::Refused as u8,
        Err(fault) => tell_failure(&fault, errors),
    }
}
