//! The table `book` of a line's file, behind the desk's tables: entries that are only ever added.
//!
//! The entries themselves, and what follows from them, are `line_book`'s.
#![tactic(auto)]

mod checking;
mod fault;
mod making;
mod naming;
mod noting;
mod reading;
mod together;

pub use checking::{check_book, is_whole, next_note};
pub use fault::BookFault;
pub use making::{make_book, make_with_book};
pub use naming::has_book;
pub use noting::append_entry;
pub use reading::{entries_after, entry_at};
pub use together::append_with_entries;
