//! The working state of a line after a judged change is accepted.

ghost use Rattle.std.specs.Prelude.{◌≡◌, ◌+◌, IfSome, length};
ghost use Rattle.desk_types.specs.History.{History, accept};
ghost use Rattle.desk_types.specs.Edits.{with_edits};
ghost use Rattle.state_rows.specs.Kept.{tables_in, but_placements};
ghost use Rattle.line_schema.specs.Settling.{CanSettle};
ghost use Rattle.line_schema.specs.Stands.{WorksFor};

use desk_types::{Change, RowEdit};
use line_traces::Working;
use state_rows::KeepsRows;

/// Accepts the change in the working state, under this number and by the edits that were committed.
/// Drops the working state if memory is refused: then the store rebuilds it.
pub fn settle<D: KeepsRows + Drop>(
    working: &mut Option<Working<D>>,
    number: u32,
    change: Change,
    edits: &[RowEdit],
)
    // The edits are those that were committed: memory and file change alike.
    requires ready { IfSome working.old
        (λ w. CanSettle D.Stands change edits.now w.desk) }
    ensures works { (H : History) → WorksFor D.Stands working.old H
        → number ≡ length H + 1
        → WorksFor D.Stands working.new (accept H change.stamped) }
    ensures rows { IfSome working.old (λ old. IfSome working.new (λ new.
        tables_in (D.kept_rows new.desk)
        ≡ but_placements (with_edits edits.now (tables_in (D.kept_rows old.desk)))
        (tables_in (D.kept_rows old.desk)))) }
{
    let Some(mut settled) = working.take() else {
        return;
    };
    if settled.lists.note(number, &change).is_err() {
        return;
    }
    if settled.desk.settle_edits(change, edits).is_ok() {
        *working = Some(settled);
    }
}
