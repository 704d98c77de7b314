//! The answer to a message under the UniqueID of an accepted command.

ghost use Rattle.std.specs.Prelude.{◌≡◌, ◌↔◌, IsTrue, IfOk, string_bytes};
ghost use Rattle.desk_types.specs.declared.command.Entry.{Entry};
ghost use Rattle.desk_types.specs.Command.{IsEntry};
ghost use Rattle.desk_types.specs.History.{History};
ghost use Rattle.desk_answers.specs.Commands.{answer_under};
ghost use Rattle.line_tables.specs.Rows.{columns_of};
ghost use Rattle.line_replay.specs.Rows.{entry_row};

use desk_answers::Answer;
use desk_types::{Listing, Stamped, Text};
use line_tables::Accepted;
use std::alloc::{AllocError, Global};

/// Returns the first answer again if the row has the same message, and otherwise that the UniqueID was used. The
/// contract assumes that the row belongs to an entry with the message's UniqueID.
pub fn answer_under(alloc: Global, row: Accepted, stamped: &Stamped) -> Result<Answer, AllocError>
    // The row has the answer as it was first sent, so a repeat gets it byte for byte.
    ensures { (G : History) (e : Entry) → IsEntry e → e.stamped.uid ≡ stamped.now.uid
        → columns_of row ≡ entry_row G e
        → IfOk result (λ answer. answer ≡ answer_under G e stamped.now) }
{
    stamped.ranges_hold();
    let text = stamped.command.write_text(alloc)?;
    let number = u64::from(row.number);
    if is_row_of(&row, stamped, &text) {
        return Ok(Answer::Accepted(number, Listing::new(row.detail.into_bytes())));
    }
    Ok(Answer::IdReused(number))
}

fn is_row_of(row: &Accepted, stamped: &Stamped, text: &Text) -> bool
    ensures { IsTrue result
        ↔ ((string_bytes row.now.source ≡ stamped.now.source) × (row.now.own ≡ stamped.now.minute)
        × (string_bytes row.now.command ≡ text.now)) }
{
    row.source.as_bytes() == stamped.source.as_bytes()
        && u64::from(row.own) == stamped.minute.get()
        && row.command.as_bytes() == text.as_slice()
}
