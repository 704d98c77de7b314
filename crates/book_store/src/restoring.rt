//! The guard of both lists, made again from the file. One row is in memory at a time.

ghost use Rattle.std.specs.Prelude.{◌≡◌, ◌≤◌, IfErr, IfOk, OnOk, Some, length};
ghost use Rattle.sqlite.specs.State.{HasCleanDisk};
ghost use Rattle.line_book.specs.Book.{Book};
ghost use Rattle.line_book.specs.Guard.{IsGuard};
ghost use Rattle.line_book_store.specs.Checking.{fault_after};
ghost use Rattle.line_book_store.specs.declared.fault.BookFault.TheVariants.{Unavailable};
ghost use Rattle.line_schema.specs.Checking.{command_numbered};
ghost use Rattle.line_schema.specs.Frames.{ReadsStore};
ghost use Rattle.line_schema.specs.Stands.{ForKept, Kept, Stands, state_of};
ghost use Rattle.book_store.specs.Restored.{IsRestored, IsWrong, history_until};

use desk_types::Stamped;
use line_book::{Guard, Reading};
use line_book_store::BookFault;
use line_schema::LineStore;
use sqlite::Alter;
use state_rows::KeepsRows;
use std::alloc::Global;

/// The guard of both lists, and what the rows so far say of the next one.
#[derive(Drop)]
pub struct Restored {
    pub guard: Guard,
    pub reading: Reading,
}

/// Reads both lists in turn, and checks the book on the way. Nothing changes in the file.
pub fn restore<S: Alter, D: KeepsRows + Drop>(
    alloc: Global,
    store: &mut LineStore<S, D>,
) -> Result<Restored, BookFault>
    ensures ok { (L : Kept) → Stands S.Store D.Stands store.old L
        → IfOk result (IsRestored L (HasCleanDisk (state_of S.Store store.new))
        (state_of S.Store store.old)) }
    // The first entry that can't follow those before it.
    ensures err { (L : Kept) → Stands S.Store D.Stands store.old L
        → HasCleanDisk (state_of S.Store store.new)
        → IfErr result (IsWrong (length L.history) (state_of S.Store store.old)) }
    ensures reads { ReadsStore S.Store D.Stands store.old store.new }
{
    let commands = store.count();
    let mut guard = Guard::new(alloc);
    let mut reading = Reading::new(u64::from(commands));
    let mut more = true;
    while more {
        let from = reading.after;
        match store.next_note(&mut reading)? {
            Some(note) => {
                advance(store, &mut guard, from, note.after)?;
                guard.noted(&note)?;
            }
            None => more = false,
        }
    }
    let whole = store.is_whole(reading.entries)?;
    if !whole {
        return Err(wrong_after(reading.entries));
    }
    advance(store, &mut guard, reading.after, commands)?;
    Ok(Restored { guard, reading })
}

/// Takes in the commands behind those that were taken in, up to this number. Nothing changes in the file.
pub fn advance<S: Alter, D: KeepsRows + Drop>(
    store: &mut LineStore<S, D>,
    guard: &mut Guard,
    from: u32,
    to: u32,
) -> Result<(), BookFault>
    ensures guard { ForKept S.Store D.Stands store.old store.new (λ L. from ≤ to
        → to ≤ length L.history → (B : Book) → IsGuard (history_until from L.history) B guard.old
        → OnOk result (IsGuard (history_until to L.history) B guard.new)) }
    ensures err { IfErr result (λ fault. fault ≡ Unavailable) }
    ensures reads { ReadsStore S.Store D.Stands store.old store.new }
{
    for i in from..to {
        let stamped = command_of(store, i + 1)?;
        guard.accepted(&stamped)?;
    }
    Ok(())
}

/// Returns the accepted command with this number. Nothing changes in the file.
pub fn command_of<S: Alter, D: KeepsRows + Drop>(
    store: &mut LineStore<S, D>,
    number: u32,
) -> Result<Stamped, BookFault>
    ensures found { ForKept S.Store D.Stands store.old store.new (λ L. IfOk result
        (λ stamped. command_numbered number L.history ≡ Some stamped)) }
    ensures err { IfErr result (λ fault. fault ≡ Unavailable) }
    ensures reads { ReadsStore S.Store D.Stands store.old store.new }
{
    match store.command_at(number) {
        Ok(Some(stamped)) => Ok(stamped),
        _ => Err(BookFault::Unavailable),
    }
}

/// Returns the fault of a book with more rows than the entries that were read.
pub fn wrong_after(entries: u32) -> BookFault
    ensures { result ≡ fault_after entries }
{
    match entries.checked_add(1) {
        Some(number) => BookFault::WrongEntry(number),
        None => BookFault::Unavailable,
    }
}
