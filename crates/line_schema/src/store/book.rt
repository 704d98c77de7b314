//! The book of a store, behind the desk's tables.

ghost use Rattle.std.specs.Prelude.{◌≡◌, ◌+◌, ◌<◌, ◌≤◌, ◌^◌, ◌++◌, [], ◌∷◌, IfErr, IfOk, IsTrue, OnOk, OnErr, List, Err, map};
ghost use Rattle.sqlite_trees.specs.Tree.{Trees};
ghost use Rattle.sqlite.specs.Held.{state};
ghost use Rattle.sqlite.specs.State.{HasCleanDisk, Survives};
ghost use Rattle.desk_types.specs.declared.limits.TheConstants.{MOST_ENTRIES};
ghost use Rattle.line_book.specs.declared.row.BookRow.{BookRow};
ghost use Rattle.line_book_store.specs.Book.{IsAlone, entry_columns};
ghost use Rattle.line_book_store.specs.Checking.{Goes, IsStop};
ghost use Rattle.line_book_store.specs.Names.{has_book};
ghost use Rattle.line_book_store.specs.Reading.{window};
ghost use Rattle.line_schema.specs.declared.fault.OpenFault.TheVariants as Fault;
ghost use Rattle.line_schema.specs.Frames.{ReadsStore};
ghost use Rattle.line_schema.specs.Stands.{Kept, Stands, state_of};
ghost use Rattle.line_schema.specs.Traces.{working_of};
ghost use Rattle.line_schema.specs.Book.{IsNextRow, LeavesBook, LeavesBothUnmade, MakesBook, MakesWithBook, StandsWith, disowned};

use crate::fault::OpenFault;
use crate::store::LineStore;
use crate::unavailable::Unavailable;
use desk_types::Rules;
use line_book::{BookRow, Note, Reading};
use line_book_store::{BookFault, append_entry, make_book, make_with_book};
use line_traces::Working;
use sqlite::{Alter, Connection};
use state_rows::{KeepsRows, TraceLists};
use std::alloc::Global;

impl<S: Alter, D: KeepsRows + Drop> LineStore<S, D> {
    /// Makes the store of an empty history and its empty book, in a file without any table, with this
    /// greatest number from 1 to 1,000,000,000. Its faults are NotBlank and Unavailable. Inside an
    /// open transaction of the caller it is Unavailable.
    pub fn create_with_book(
        alloc: Global,
        conn: Connection<S>,
        greatest: u32,
    ) -> Result<LineStore<S, D>, (OpenFault, Connection<S>)>
        requires least { 1 ≤ greatest }
        requires most { greatest ≤ MOST_ENTRIES }
        ensures made { IfOk result
            (MakesWithBook S.Store D.Stands D.kept_rows conn greatest) }
        // The connection comes back, so a caller can close it or try again.
        ensures unmade { IfErr result (λ e. LeavesBothUnmade S.Store greatest conn e.0 e.1) }
        // What the caller began must neither be committed nor undone here.
        ensures inside { IsTrue conn.in_transaction → result ≡ Err (Fault.Unavailable, conn) }
    {
        let mut conn = conn;
        if !conn.is_autocommit() {
            return Err((OpenFault::Unavailable, conn));
        }
        if !conn.schema().tables.is_empty() {
            return Err((OpenFault::NotBlank, conn));
        }
        let desk = D::fresh(alloc, Rules::Two);
        let _empty = desk.rows();
        match make_with_book(&mut conn, greatest) {
            Ok(()) => Ok(LineStore {
                alloc,
                conn,
                working: Some(Working {
                    desk,
                    lists: TraceLists::new(alloc),
                }),
                count: 0,
                greatest,
            }),
            Err(_) => Err((OpenFault::Unavailable, conn)),
        }
    }

    /// Returns whether the file has the book. If another table is in its place, or it has other
    /// columns, the file is refused.
    pub fn has_book(&self) -> Result<bool, BookFault>
        ensures named { result ≡ has_book (state_of S.Store self.now).now.schema.tables }
        ensures committed { (L : Kept) → Stands S.Store D.Stands self.now L
            → IsTrue (state_of S.Store self.now).is_open
            → result ≡ has_book (state_of S.Store self.now).committed.schema.tables }
    {
        let _settled = self.conn.is_autocommit();
        line_book_store::has_book(&self.conn)
    }

    /// Creates the empty book in a file without one, and commits it. The history stays. The contract
    /// on values is for a file with no other tables.
    pub fn add_book(&mut self) -> Result<(), Unavailable>
        ensures made { (L : Kept) → Stands S.Store D.Stands self.old L
            → IsAlone (state_of S.Store self.old).committed
            → MakesBook S.Store D.Stands self.old self.new L result }
        ensures err { (L : Kept) → Stands S.Store D.Stands self.old L
            → OnErr result (Stands S.Store D.Stands self.new L) }
        ensures kept { (L : Kept) → Stands S.Store D.Stands self.old L
            → Stands S.Store D.Stands self.new (disowned L) }
        ensures working { working_of self.new ≡ working_of self.old }
        ensures was_open { HasCleanDisk (state_of S.Store self.new)
            → OnOk result (IsTrue (state_of S.Store self.old).is_open) }
    {
        match make_book(&mut self.conn) {
            Ok(()) => Ok(()),
            Err(_) => Err(Unavailable),
        }
    }

    /// Writes an entry behind the others, and commits it before it returns. The history stays. After
    /// Unavailable the committed book is unchanged, and a crash may still leave the entry.
    pub fn note(&mut self, entry: &BookRow) -> Result<(), Unavailable>
        ensures ok { (L : Kept) (entries : List BookRow)
            → StandsWith S.Store D.Stands self.old L entries → IsNextRow entry.now entries
            → OnOk result (StandsWith S.Store D.Stands self.new L (entries ++ entry.now ∷ [])) }
        ensures err { (L : Kept) (entries : List BookRow)
            → StandsWith S.Store D.Stands self.old L entries
            → OnErr result (StandsWith S.Store D.Stands self.new L entries) }
        ensures kept { (L : Kept) → Stands S.Store D.Stands self.old L
            → Stands S.Store D.Stands self.new (disowned L) }
        ensures working { working_of self.new ≡ working_of self.old }
        // On disk whole, or not at all.
        ensures crash { (L : Kept) (entries : List BookRow)
            → StandsWith S.Store D.Stands self.old L entries → IsNextRow entry.now entries
            → IsTrue L.own → Survives (state_of S.Store self.old) (state_of S.Store self.new)
            (LeavesBook L (entries ++ entry.now ∷ [])) }
        // On disk before the answer goes out.
        ensures alone { (L : Kept) (entries : List BookRow)
            → StandsWith S.Store D.Stands self.old L entries → IsNextRow entry.now entries
            → IsTrue L.own → HasCleanDisk (state_of S.Store self.new)
            → OnOk result ((trees : Trees) → (state_of S.Store self.new).may_leave trees
            → LeavesBook L (entries ++ entry.now ∷ []) trees) }
    {
        match append_entry(&mut self.conn, entry) {
            Ok(()) => Ok(()),
            Err(_) => Err(Unavailable),
        }
    }

    /// Returns at most so many entries behind the one with this number, in their order. Nothing
    /// changes.
    pub fn entries_after(&mut self, number: u32, most: u32) -> Result<Vec<BookRow>, Unavailable>
        ensures window { (L : Kept) (entries : List BookRow)
            → StandsWith S.Store D.Stands self.old L entries → IsTrue L.own
            → HasCleanDisk (state_of S.Store self.new)
            → IfOk result (λ found. map entry_columns found.items
            ≡ map entry_columns (window number most entries)) }
        ensures reads { ReadsStore S.Store D.Stands self.old self.new }
    {
        match line_book_store::entries_after(self.alloc, &mut self.conn, number, most) {
            Ok(entries) => Ok(entries),
            Err(_) => Err(Unavailable),
        }
    }

    /// Returns the next entry behind those that were read, or none if no row has its number. Nothing
    /// changes in the file.
    pub fn next_note(&mut self, reading: &mut Reading) -> Result<Option<Note>, BookFault>
        ensures ok { IfOk result (Goes (HasCleanDisk (state_of S.Store self.new))
            (state_of S.Store self.old) reading.old reading.new) }
        ensures room { IfOk result (λ _. reading.old.entries + 1 < 2 ^ 32) }
        ensures err { HasCleanDisk (state_of S.Store self.new)
            → IfErr result (IsStop (state_of S.Store self.old) reading.old) }
        ensures reads { ReadsStore S.Store D.Stands self.old self.new }
    {
        line_book_store::next_note(self.alloc, &mut self.conn, reading)
    }
}
