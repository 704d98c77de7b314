//! Reads of both lists, for an opening that checks the book and makes a guard again.

ghost use Rattle.std.specs.Prelude.{◌≡◌, ◌==◌, IfErr, IfOk, length};
ghost use Rattle.sqlite.specs.State.{HasCleanDisk};
ghost use Rattle.line_book_store.specs.Checking.{IsChecked, IsFaultOf};
ghost use Rattle.line_book_store.specs.Reading.{ReadsShelf};
ghost use Rattle.line_book_store.specs.declared.fault.BookFault.TheVariants.{Unavailable as NoRead};
ghost use Rattle.line_schema.specs.Checking.{command_numbered};
ghost use Rattle.line_schema.specs.Frames.{ReadsStore};
ghost use Rattle.line_schema.specs.Stands.{ForKept, Kept, Stands, state_of};

use crate::store::LineStore;
use crate::unavailable::Unavailable;
use desk_types::Stamped;
use line_book_store::BookFault;
use line_replay::stamped_of;
use line_tables::row_at;
use sqlite::Alter;
use state_rows::KeepsRows;

impl<S: Alter, D: KeepsRows + Drop> LineStore<S, D> {
    /// Reads the book in turn, and returns the number of its entries. Nothing changes in the file.
    pub fn check_book(&mut self) -> Result<u32, BookFault>
        ensures ok { (L : Kept) → Stands S.Store D.Stands self.old L
            → IfOk result (IsChecked (length L.history) (HasCleanDisk (state_of S.Store self.new))
            (state_of S.Store self.old)) }
        // The first entry that can't follow those before it.
        ensures err { (L : Kept) → Stands S.Store D.Stands self.old L
            → HasCleanDisk (state_of S.Store self.new)
            → IfErr result (IsFaultOf (length L.history) (state_of S.Store self.old)) }
        ensures reads { ReadsStore S.Store D.Stands self.old self.new }
    {
        let commands = u64::from(self.count);
        line_book_store::check_book(self.alloc, &mut self.conn, commands)
    }

    /// Returns whether the book has so many rows. Nothing changes in the file.
    pub fn is_whole(&mut self, entries: u32) -> Result<bool, BookFault>
        ensures counted { HasCleanDisk (state_of S.Store self.new)
            → IfOk result (λ whole. ReadsShelf (state_of S.Store self.old)
            (λ rows. whole ≡ (entries == length rows))) }
        ensures err { IfErr result (λ fault. fault ≡ NoRead) }
        ensures reads { ReadsStore S.Store D.Stands self.old self.new }
    {
        line_book_store::is_whole(&mut self.conn, entries)
    }

    /// Returns the accepted command with this number, if there is one. Nothing changes in the file.
    pub fn command_at(&mut self, number: u32) -> Result<Option<Stamped>, Unavailable>
        ensures found { ForKept S.Store D.Stands self.old self.new
            (λ L. IfOk result (λ found. found ≡ command_numbered number L.history)) }
        ensures reads { ReadsStore S.Store D.Stands self.old self.new }
    {
        let row = match row_at(&mut self.conn, number)? {
            Some(row) => row,
            None => return Ok(None),
        };
        match stamped_of(self.alloc, &row)? {
            Some(stamped) => {
                stamped.ranges_hold();
                Ok(Some(stamped))
            }
            None => Err(Unavailable),
        }
    }
}
