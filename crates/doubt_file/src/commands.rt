//! The accepted commands of a store.

ghost use Rattle.std.specs.Prelude.{◌≡◌, IfErr, IfOk};
ghost use Rattle.line_book.specs.Restored.{history_of};
ghost use Rattle.line_book_store.specs.declared.fault.BookFault.TheVariants.{Unavailable};
ghost use Rattle.line_schema.specs.Frames.{ReadsStore};
ghost use Rattle.line_schema.specs.Stands.{ForKept};

use crate::adding::add;
use book_store::command_of;
use desk_types::Stamped;
use line_book_store::BookFault;
use line_schema::LineStore;
use sqlite::Alter;
use state_rows::KeepsRows;
use std::alloc::Global;

/// Returns all accepted commands, in their order. Nothing changes in the file.
pub fn commands_of<S: Alter, D: KeepsRows + Drop>(
    alloc: Global,
    store: &mut LineStore<S, D>,
) -> Result<Vec<Stamped>, BookFault>
    ensures commands { ForKept S.Store D.Stands store.old store.new (λ L. IfOk result
        (λ commands. history_of commands.items ≡ L.history)) }
    ensures err { IfErr result (λ fault. fault ≡ Unavailable) }
    ensures reads { ReadsStore S.Store D.Stands store.old store.new }
{
    let count = store.count();
    let mut commands = Vec::new(alloc);
    for i in 0..count {
        let stamped = command_of(store, i + 1)?;
        add(&mut commands, stamped)?;
    }
    Ok(commands)
}
