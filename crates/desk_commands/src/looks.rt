//! A desk in a file, audited or migrated.

ghost use Rattle.std.specs.Prelude.{◌≡◌, ◌⊎◌, ◌||◌, None, ℕ};
ghost use Rattle.desk_file.specs.Opened.{has_opened};
ghost use Rattle.desk_commands.specs.Closed.{is_left_open};
ghost use Rattle.desk_commands.specs.Ends.{PrintEnds};
ghost use Rattle.desk_commands.specs.OpenRuns.{StaysSame};
ghost use Rattle.desk_commands.specs.Told.{lawful_line, version_line, TellsLine};
ghost use Rattle.desk_commands.specs.Wires.{HaveFewFailures};
ghost use Rattle.desk_commands.specs.Runs.{Audits, HasNoDesk, LeavesDesk, LeavesFile, Migrates, Refuses, RefusesToMigrate, RunsOn};

use crate::left::ToClose;
use crate::refusal::tell_refusal;
use crate::texts::{send_text, tell_lawful};
use desk_file::{FileOpener, migrate_desk, open_desk};
use desk_types::Wire;
use feeder_state::StateDesk;
use sqlite::{FileFrom, Start};
use std::io::Write;

/// Opens the desk in a file, judges each command again, and prints their number. Returns the exit status, and the desk
/// or the refused file.
pub fn audit_file<T: Start, W: Write, E: Write>(
    rt: &HostRuntime,
    file: &str,
    opener: &mut FileOpener<T>,
    output: &mut Wire<W>,
    errors: &mut Wire<E>,
) -> (u8, ToClose<FileFrom<T>>)
    requires few { HaveFewFailures output.old errors.old }
    // Only a history that was judged whole is called lawful; status 4: it could not be printed.
    ensures ends { (count : ℕ)
        × PrintEnds W.contents E.contents output.old output.new errors.old errors.new
        (lawful_line count)
        (HasNoDesk (Refuses T.Start None result.1) (RunsOn T.Start None result.1 StaysSame)
        (TellsLine E.contents errors.old errors.new)) result.0
        × ((result.0 ≡ 0) ⊎ (result.0 ≡ 4) → Audits T.Start result.1 count) }
    ensures left { LeavesDesk result.1 }
    ensures told { has_opened opener.new ≡ (is_left_open result.1 || has_opened opener.old) }
{
    match open_desk::<T, StateDesk>(rt, file, opener, None) {
        Ok(store) => {
            let status = tell_lawful(rt.alloc(), store.count(), output, errors);
            (status, ToClose::Desk(store))
        }
        Err(refusal) => (
            tell_refusal(rt.alloc(), &refusal.fault, errors),
            ToClose::Refused(refusal),
        ),
    }
}

/// Migrates the file at a path from version 1 to version 2, and says so. Returns the exit status, and the file,
/// migrated or refused.
pub fn migrate_file<T: Start, W: Write, E: Write>(
    rt: &HostRuntime,
    file: &str,
    opener: &mut FileOpener<T>,
    output: &mut Wire<W>,
    errors: &mut Wire<E>,
) -> (u8, ToClose<FileFrom<T>>)
    requires few { HaveFewFailures output.old errors.old }
    ensures ends { PrintEnds W.contents E.contents output.old output.new errors.old errors.new
        version_line (HasNoDesk (RefusesToMigrate T.Start result.1) ⊥
        (TellsLine E.contents errors.old errors.new)) result.0 }
    // Status 4 too: the file is migrated, and only the line about it could not be printed.
    ensures migrates { (result.0 ≡ 0) ⊎ (result.0 ≡ 4) → Migrates T.Start result.1 }
    ensures left { LeavesFile result.1 }
    ensures told { has_opened opener.new ≡ (is_left_open result.1 || has_opened opener.old) }
{
    match migrate_desk::<T, StateDesk>(rt, file, opener) {
        Ok(conn) => {
            let status = send_text("version 2\n", output, errors);
            (status, ToClose::Migrated(conn))
        }
        Err(refusal) => (
            tell_refusal(rt.alloc(), &refusal.fault, errors),
            ToClose::Refused(refusal),
        ),
    }
}
