//! The answer and the edits of an accepted command.

ghost use Rattle.std.specs.Prelude.{◌≡◌, ◌+◌, ℕ, IfOk, length};
ghost use Rattle.desk_types.specs.declared.rules.Rules.TheVariants.{Two};
ghost use Rattle.desk_types.specs.Desk.{HasRoom, IsChange};
ghost use Rattle.desk_types.specs.History.{Basis, accept};
ghost use Rattle.desk_answers.specs.Texts.{accepted_text};
ghost use Rattle.desk_types.specs.Edits.{with_edits};
ghost use Rattle.desk_types.specs.Tables.{tables_of};
ghost use Rattle.state_rows.specs.Kept.{unnumbered};
ghost use Rattle.line_tables.specs.Edit.{command_edits};
ghost use Rattle.line_tables.specs.Rows.{after_edits, AreNew};
ghost use Rattle.line_replay.specs.Rows.{ledger_tables};

use crate::kept::row_of;
use crate::row_fault::NoRow;
use desk_answers::accepted_text;
use desk_types::{Change, Desk, RowEdits, Text};
use line_tables::Accepted;
use state_rows::rows_of;
use std::alloc::Global;

/// The text of an answer, and the row and the edits that are committed before it is sent.
pub struct Acceptance {
    pub text: Text,
    pub row: Accepted,
    pub edits: RowEdits,
}

/// Returns the answer, the row and the edits for a change that the desk judged, under this number.
pub fn prepare<D: Desk>(
    alloc: Global,
    number: u32,
    desk: &D,
    change: &Change,
) -> Result<Acceptance, NoRow>
    // The new entry takes the next number, so one must be left.
    requires room { HasRoom D.Stands desk.now 1 }
    requires judged { (B : Basis) → D.Stands desk.now B
        → IsChange B.rules B.history change.now.stamped change.now }
    ensures text { IfOk result
        (λ it. it.text ≡ accepted_text number change.now.stamped.uid change.now.detail) }
    ensures edits { (greatest : ℕ) (B : Basis) → D.Stands desk.now B
        → IsChange Two B.history change.now.stamped change.now
        → number ≡ length B.history + 1
        → IfOk result
        (λ it. after_edits (command_edits it.row it.edits) (ledger_tables greatest B.history)
        ≡ ledger_tables greatest
        (accept B.history change.now.stamped)) }
    // So no edit inserts a row that exists, which a rule of its table would refuse.
    ensures new { (greatest : ℕ) (B : Basis) → D.Stands desk.now B → number ≡ length B.history + 1
        → IfOk result
        (λ it. AreNew (command_edits it.row it.edits) (ledger_tables greatest B.history)) }
    ensures lead { (B : Basis) → D.Stands desk.now B
        → IfOk result
        (λ it. unnumbered (with_edits it.edits (tables_of B.history)) ≡ unnumbered (tables_of
        (accept B.history change.now.stamped))) }
{
    let text = accepted_text(
        alloc,
        u64::from(number),
        &change.stamped.uid,
        &change.detail,
    )?;
    let row = row_of(alloc, number, change, &text)?;
    let edits = rows_of(alloc, desk, change, u64::from(number))?;
    Ok(Acceptance { text, row, edits })
}
