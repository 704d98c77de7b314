//! A store on a disk that may fail. It is for proofs; nothing of it runs.

ghost use Rattle.std.specs.Prelude.{ℕ, List, IsTrue};
ghost use Rattle.sqlite.specs.State.{HasCleanDisk};
ghost use Rattle.desk_types.specs.History.{History};
ghost use Rattle.line_schema.specs.Stands.{Stands, state_of};
ghost use Rattle.headline.specs.Calls.{AnswersByTheList, Call, Calls};
ghost use Rattle.headline.specs.Failing.{IsWatched, no_reports, own_kept};
ghost use Rattle.headline.specs.Runs.{by_two};

use desk_answers::{Answer, Owner};
use desk_types::{Stamped, Text};
use gateway_http::{Report, ReportedOwner, Unavailable};
use line_schema::LineStore;
use sqlite::Alter;
use state_rows::KeepsRows;
use std::alloc::Global;

/// A store as an owner whose clauses also say what a crash leaves of its files. It finds no report.
pub struct WatchedStore<S: Alter, D: KeepsRows + Drop> {
    pub store: LineStore<S, D>,
}

impl<S: Alter, D: KeepsRows + Drop> Owner for WatchedStore<S, D> {
    ghost use Rattle.std.specs.Prelude.{◌≡◌};
    ghost use Rattle.sqlite.specs.State.{HasCleanDisk};
    ghost use Rattle.desk_types.specs.declared.rules.Rules.TheVariants.{Two};
    ghost use Rattle.line_schema.specs.Stands.{Kept, Stands as StandsFor, state_of};
    ghost use Rattle.headline.specs.Failing.{IsWatched, own_kept};

    ghost Stands = { λ watched G. (G.rules ≡ Two)
        × IsWatched S.Store D.Stands watched.store (own_kept G) };

    ghost Ready = { λ watched. (L : Kept)
        × StandsFor S.Store D.Stands watched.store L };

    ghost Trusts = { λ watched. HasCleanDisk (state_of S.Store watched.store) };

    fn command(&mut self, stamped: &Stamped) -> Answer {
        self.store.command(stamped)
    }

    fn is_lawful(&self) {
        self.store.is_lawful();
    }
}

impl<S: Alter, D: KeepsRows + Drop> ReportedOwner for WatchedStore<S, D> {
    ghost use Rattle.headline.specs.Failing.{no_reports};

    ghost reports = { no_reports };

    fn report(&mut self, _alloc: Global, _asked: Report) -> Result<Option<Text>, Unavailable> {
        Ok(None)
    }
}

/// A law: calls on an open store whose disk fails at any point, also within a command in mid-feed. A crash leaves the
/// tables of the history that answers the calls, or those with one more command that would be accepted. `headline`
/// shows each of the calls; here a report is answered with nothing.
pub fn failing_disks_leave_the_list<S: Alter, D: KeepsRows + Drop>(
    first: &WatchedStore<S, D>,
    last: &WatchedStore<S, D>,
)
    // The disk may fail or refuse at any point, but it must not have lied by the end.
    ensures list { (calls : List Call) (greatest : ℕ) (G : History)
        → Stands S.Store D.Stands first.now.store (own_kept (by_two greatest G))
        → IsTrue (state_of S.Store first.now.store).is_open
        → Calls no_reports ⟦<WatchedStore<S, D> as Owner>⟧.Stands
        ⟦<WatchedStore<S, D> as Owner>⟧.Trusts
        first.now calls last.now
        → HasCleanDisk (state_of S.Store last.now.store)
        → (H : History) × AnswersByTheList no_reports (by_two greatest G) calls H
        × IsWatched S.Store D.Stands last.now.store (own_kept (by_two greatest H)) }
{
    first.store.crash_leaves_the_list();
}
