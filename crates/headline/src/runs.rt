//! Any number of runs on the same files: the answers to their calls, and the files' contents afterwards. This crate
//! serves proofs; nothing of it runs.
//!
//! `specs/Runs.antt` defines a run, and how runs combine.

ghost use Rattle.std.specs.Prelude.{ℕ, List, [], Option, Some};
ghost use Rattle.sqlite_wal.specs.Recovery.{Image};
ghost use Rattle.gateway_http.specs.Requests.{Reports};
ghost use Rattle.gateway_http.specs.Reports.{report_of};
ghost use Rattle.desk_commands.specs.OpenRuns.{StaysSame};
ghost use Rattle.desk_commands.specs.declared.left.ToClose.TheVariants.{Desk};
ghost use Rattle.desk_commands.specs.Runs.{RunsOn};
ghost use Rattle.desk_commands.specs.Closed.{RefusesTo, RefusesToMigrateTo, whole};
ghost use Rattle.line_schema.specs.declared.fault.OpenFault.{OpenFault};
ghost use Rattle.headline.specs.Closed.{GivesCalls, GivesClosedRun, GivesWholeRun, ReadsClean, run_of};
ghost use Rattle.headline.specs.Runs.{AreRuns, IsRun, KeepsList, Run, as_one};
ghost use Rattle.headline.specs.Crashed.{Crashes, CrashesTo, GivesKilledRun, MakesCalls, killed_run_of};
ghost use Rattle.headline.specs.Calls.{AnswersByTheList, Call, Calls};

use desk_answers::Owner;
use desk_file::{FileDesk, next_run_goes_on};
use feeder_state::StateDesk;
use line_schema::LineStore;
use sqlite::{FileFrom, FileStore, Files, Start};
use sqlite_disk::Disk;
use state_rows::KeepsRows;

/// A law: runs one after another, each on the files that the previous one left, are equivalent to one run that makes
/// all their calls. So every answer of every run is that of one list of accepted commands, which is lawful and
/// consistent, and the files hold its tables.
pub fn many_runs_are_one()
    // A refused run among them adds no call and keeps the tables, so it changes nothing.
    ensures { (reports : Reports) (run : Run) (runs : List Run) → IsRun reports run
        → AreRuns reports run.last runs
        → IsRun reports (as_one run runs) }
{
    next_run_goes_on();
}

/// A law: a run of the program that closed its desk's file is a run, with the calls that its contracts give.
pub fn closed_runs_are_runs<T: Start>(desk: &FileDesk<T, StateDesk>, files: &Files<FileFrom<T>>)
    ensures { GivesCalls (GivesClosedRun T.Start desk.now files.now) }
{}

/// A law: a whole run of the program that closed its desk's file is a run, with the calls that its contract gives.
pub fn whole_runs_are_runs<T: Start>(files: &Files<FileFrom<T>>)
    ensures { GivesCalls (GivesWholeRun T.Start ⟦<FileFrom<T> as Disk>⟧ files.now) }
{}

/// A law: a whole run that was refused its files, and closed them, keeps their history and makes no call.
pub fn refused_runs_keep_lists<T: Start>(files: &Files<FileFrom<T>>)
    ensures refused { (make : Option ℕ) (fault : OpenFault) (image : Image)
        → RefusesTo whole T.Start ⟦<FileFrom<T> as Disk>⟧ (Some files.now) make fault
        → ReadsClean ⟦<FileFrom<T> as Disk>⟧ files.now image
        → KeepsList (run_of T.Start make [] image) }
    ensures unmigrated { (make : Option ℕ) (fault : OpenFault) (image : Image)
        → RefusesToMigrateTo whole T.Start ⟦<FileFrom<T> as Disk>⟧ (Some files.now) fault
        → ReadsClean ⟦<FileFrom<T> as Disk>⟧ files.now image
        → KeepsList (run_of T.Start make [] image) }
{
    next_run_goes_on();
}

/// A law: after a kill between two calls, which drops the files without a close, they hold the tables of the desk's
/// history.
pub fn let_go<F: Disk + Drop, D: KeepsRows + Drop>(desk: LineStore<FileStore<F>, D>) -> Files<F>
    // A kill does to the files what this body does: it drops them without a close.
    ensures left { Crashes D.Stands desk result }
{
    let conn = desk.into_connection();
    let _obeyed = conn.schema();
    let store = conn.into_store();
    store.close()
}

/// A law: a run that was killed between two calls, while its desk was open, is a run with the calls that
/// had returned.
pub fn killed_runs_are_runs<T: Start>(
    opened: &FileDesk<T, StateDesk>,
    last: &FileDesk<T, StateDesk>,
    files: &Files<FileFrom<T>>,
)
    ensures { (make : Option ℕ) (calls : List Call) (image : Image)
        → RunsOn T.Start make (Desk opened.now) StaysSame → MakesCalls opened.now calls last.now
        → CrashesTo last.now files.now image
        → IsRun report_of (killed_run_of T.Start make calls image) }
{}

/// A law: calls on an owner, as `headline` shows each of them, are calls on the desk of a file if the owner is the
/// program's store.
pub fn store_calls_are_calls<F: Disk + Drop>(
    opened: &LineStore<FileStore<F>, StateDesk>,
    last: &LineStore<FileStore<F>, StateDesk>,
)
    ensures { (calls : List Call)
        → Calls report_of ⟦<LineStore<FileStore<F>, StateDesk> as Owner>⟧.Stands
        ⟦<LineStore<FileStore<F>, StateDesk> as Owner>⟧.Trusts opened.now calls last.now
        → MakesCalls opened.now calls last.now }
{}

/// A law: a run that was killed while its desk was open is a run, with the calls that the command's contract
/// gives of that desk. A feed, an import or a connection may have ended with a fault, such as a failed read or
/// write. That a kill at that point leaves the same files is not proved.
pub fn crashed_runs_are_runs<T: Start>(desk: &FileDesk<T, StateDesk>, files: &Files<FileFrom<T>>)
    ensures crashed { (calls : List Call)
        → GivesKilledRun T.Start desk.now files.now
        (λ G H. AnswersByTheList report_of G calls H) calls }
    ensures calls { GivesCalls (GivesKilledRun T.Start desk.now files.now) }
{}
