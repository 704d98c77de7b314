//! An import, answered.

ghost use Rattle.std.specs.Prelude.{◌≡◌};
ghost use Rattle.desk_answers.specs.Ledger.{ForLists};
ghost use Rattle.desk_commands.specs.Ends.{ImportEnds};
ghost use Rattle.desk_commands.specs.Told.{unavailable_line, TellsLine};
ghost use Rattle.desk_commands.specs.Wires.{HaveFewFailures};

use crate::exit::{Exit, tell_line, unavailable};
use desk_answers::Owner;
use desk_feed::{Folder, UnreadFile, serve_import};
use desk_types::Wire;
use imports::Import;
use std::alloc::Global;
use std::io::Write;

/// Answers an import by an owner of a history. Returns the exit status.
pub fn import_rows<F: Folder, W: Write, E: Write, L: Owner>(
    alloc: Global,
    owner: &mut L,
    import: &Import,
    folder: &F,
    from: &str,
    output: &mut Wire<W>,
    errors: &mut Wire<E>,
) -> u8
    requires few { HaveFewFailures output.old errors.old }
    // An owner that isn't ready has no history to answer by.
    requires ready { L.Ready owner.old }
    ensures ready { L.Ready owner.new }
    // A disk that has lied is never trusted again: nothing that is said of an honest one holds.
    ensures trusts { L.Trusts owner.new → L.Trusts owner.old }
    ensures ends { ImportEnds W.contents E.contents output.old output.new errors.old errors.new
        import.now (F.holds folder.now from.now) (F.may_fail folder.now from.now)
        (ForLists L.Stands L.Trusts owner.old owner.new)
        ((owner.new ≡ owner.old) × TellsLine E.contents errors.old errors.new unavailable_line)
        result }
{
    let bytes = match folder.read(alloc, from) {
        Ok(bytes) => bytes,
        Err(UnreadFile::Failed) => {
            tell_line(errors, "tracedesk: Read");
            return Exit::Failed as u8;
        }
        Err(UnreadFile::NoMemory) => return unavailable(errors),
    };
    match serve_import(alloc, output, owner, import, &bytes) {
        Ok(false) => Exit::Done as u8,
        Ok(true) => Exit::Refused as u8,
        Err(_) => {
            tell_line(errors, "tracedesk: Write");
            Exit::Failed as u8
        }
    }
}
