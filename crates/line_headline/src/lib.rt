//! Any number of calls on a line's store of both lists, and kills. This crate is for proofs, and nothing of it runs.
//!
//! `specs/Calls.antt` defines the effect of one call and of several in sequence. `hear`, `command` and `say` show it for
//! each call that changes a list. `specs/Runs.antt` says how the next run opens the file.
#![tactic(auto)]

mod laws;

ghost use Rattle.std.specs.Prelude.{◌≡◌, List, Option};
ghost use Rattle.sqlite_trees.specs.Tree.{Trees};
ghost use Rattle.line_schema.specs.Stands.{Kept};
ghost use Rattle.book_store.specs.Ended.{LeavesLists};
ghost use Rattle.book_store.specs.Lists.{Lists, StandsFor};
ghost use Rattle.line_headline.specs.Calls.{Call, Calls, GiveInTurn, Grows, IsWatched, answered};
ghost use Rattle.line_headline.specs.Runs.{AreLawful, IsOpenedOn};

use book_store::BookStore;
pub use laws::{command, hear, say};
use line_replay::rows_tell_lists_apart;
use line_schema::LineStore;
use sqlite::Alter;
use state_rows::KeepsRows;

/// A law: after any number of calls the store represents the lists that the answered ones give, one after another, and
/// the book has all entries of before at its beginning. Whatever a kill leaves of the file, at any time, holds these
/// lists, or those with one more call that was not answered.
pub fn kills_leave_both_lists<S: Alter, D: KeepsRows + Drop>(
    first: &BookStore<S, D>,
    last: &BookStore<S, D>,
)
    // A kill may leave one call more than was answered, so its sender must ask again.
    ensures { (calls : List (Option Call)) (L M : Lists)
        → IsWatched S.Store D.Stands first.now L
        → Calls S.Store D.Stands first.now L calls last.now M
        → IsWatched S.Store D.Stands last.now M × GiveInTurn L (answered calls) M × Grows L M }
{}

/// A law: a store that is opened on a file which holds both lists represents these very lists, with the same rows. So
/// each run begins with what the one before it left, however that ended.
pub fn next_run_has_both_lists<S: Alter, D: KeepsRows + Drop>(
    desk: &LineStore<S, D>,
    opened: &BookStore<S, D>,
)
    // The rows are the same too, so each entry keeps its number and its words.
    ensures { (L : Lists) (trees : Trees) (K : Kept) → AreLawful L → LeavesLists L trees
        → IsOpenedOn S.Store D.Stands desk.now opened.now K trees
        → (K.history ≡ L.kept.history) × StandsFor S.Store D.Stands opened.now
        (record { kept = K; rows = L.rows; notes = L.notes }) }
{
    rows_tell_lists_apart();
}

/// A law: the lists that a store represents are lawful.
pub fn lists_of_a_store_are_lawful<S: Alter, D: KeepsRows + Drop>(store: &BookStore<S, D>)
    // `next_run_has_both_lists` asks this of the lists that a run leaves.
    ensures { (L : Lists) → StandsFor S.Store D.Stands store.now L → AreLawful L }
{}
