//! The headline: the answers of any number of calls on one desk, and its history and tables after
//! them; then of any number of runs on the same files. This crate is for proofs, and nothing of it runs.
//!
//! `specs/Calls.antt` defines the effect of one call and of several in sequence. `feed`, `serve`,
//! `command`, `ask`, `report` and `import` show it for each call that the program makes.
//! `specs/Runs.antt` defines a run, and how runs combine.
#![tactic(auto)]

mod calls;
mod failing;
mod runs;
mod whole;

ghost use Rattle.std.specs.Prelude.{List};
ghost use Rattle.desk_types.specs.History.{History};
ghost use Rattle.desk_types.specs.Judged.{IsLawful};
ghost use Rattle.desk_answers.specs.Ledger.{Ledger};
ghost use Rattle.desk_laws.specs.Consistent.{IsConsistent};
ghost use Rattle.headline.specs.Calls.{AnswersByTheList, Call, Calls};

pub use calls::{ask, command, feed, import, report, serve};
pub use failing::{WatchedStore, failing_disks_leave_the_list};
use gateway_http::ReportedOwner;
pub use runs::{
    closed_runs_are_runs, crashed_runs_are_runs, killed_runs_are_runs, let_go, many_runs_are_one,
    refused_runs_keep_lists, store_calls_are_calls, whole_runs_are_runs,
};
pub use whole::whole_run_goes_on;

/// A law: for every stream of requests, in whatever pieces and with repeats and refusals, the
/// history of accepted commands alone determines every answer. That history is lawful and
/// consistent, and the called owner represents it; a store represents a history by its tables.
pub fn headline<L: ReportedOwner>(first: &L, last: &L)
    // Trust at the end is enough: storage that has lied once isn't trusted again.
    ensures { (calls : List Call) → Calls L.reports L.Stands L.Trusts first.now calls last.now
        → (G : Ledger) → L.Stands first.now G → L.Trusts last.now
        → (H : History) × L.Stands last.now (record G { history = H })
        × AnswersByTheList L.reports G calls H
        × IsLawful G.rules G.greatest H × IsConsistent H }
{
    last.is_lawful();
}
