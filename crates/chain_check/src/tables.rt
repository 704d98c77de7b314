//! Differences between the tables of two desks.

ghost use Rattle.std.specs.Prelude.{◌≡◌, ◌≢◌, true, false, not, ◌&&◌, is_some, IfNone, IfSome};
ghost use Rattle.desk_types.specs.Id.{Name};
ghost use Rattle.state_rows.specs.Kept.{tables_in, unnumbered};
ghost use Rattle.desk_types.specs.declared.rules.Rules.TheVariants.{Two};
ghost use Rattle.desk_types.specs.History.{History};
ghost use Rattle.desk_types.specs.Judged.{IsJudged};
ghost use Rattle.desk_types.specs.Tables.{tables_of};
ghost use Rattle.chain_check.specs.Difference.{IsDifference};
ghost use Rattle.chain_check.specs.Tables.{machine_at, IsSetupAlike, IsWorkAlike};

use crate::difference::Difference;
use desk_types::Id;
use state_rows::RowSet;

/// Returns the first of these parts that only one of the desks has.
fn part_in(parts: &RowSet, old: &RowSet, new: &RowSet) -> Option<Id>
    ensures same { (part : Name)
        → IfNone result ((tables_in parts.now).parts part ≡ true
        → (tables_in old.now).parts part ≡ (tables_in new.now).parts part) }
    ensures differs { IfSome result
        (λ part. (tables_in old.now).parts part ≢ (tables_in new.now).parts part) }
{
    for part in parts.parts() {
        if old.part_set().has(part) != new.part_set().has(part) {
            return Some(*part);
        }
    }
    None
}

/// Returns the first part that only one of the desks has.
fn first_part(old: &RowSet, new: &RowSet) -> Option<Id>
    ensures same { (part : Name)
        → IfNone result ((tables_in old.now).parts part ≡ (tables_in new.now).parts part) }
    ensures differs { IfSome result
        (λ part. (tables_in old.now).parts part ≢ (tables_in new.now).parts part) }
{
    if let Some(part) = part_in(old, old, new) {
        return Some(part);
    }
    part_in(new, old, new)
}

/// Returns the first of these pairs of a part and its alternate that only one of the desks has.
fn alternate_in(alternates: &RowSet, old: &RowSet, new: &RowSet) -> Option<(Id, Id)>
    ensures same { (p q : Name)
        → IfNone result ((tables_in alternates.now).alternates p q ≡ true
        → (tables_in old.now).alternates p q ≡ (tables_in new.now).alternates p q) }
    ensures differs { IfSome result
        (λ k. (tables_in old.now).alternates k.0 k.1 ≢ (tables_in new.now).alternates k.0 k.1) }
{
    for (part, alternate) in alternates.alternates() {
        let of_old = old.alternate_set().has(part, alternate);
        if of_old != new.alternate_set().has(part, alternate) {
            return Some((*part, *alternate));
        }
    }
    None
}

/// Returns the first part and alternate that only one of the desks has.
fn first_alternate(old: &RowSet, new: &RowSet) -> Option<(Id, Id)>
    ensures same { (p q : Name)
        → IfNone result ((tables_in old.now).alternates p q ≡ (tables_in new.now).alternates p q) }
    ensures differs { IfSome result
        (λ k. (tables_in old.now).alternates k.0 k.1 ≢ (tables_in new.now).alternates k.0 k.1) }
{
    if let Some(pair) = alternate_in(old, old, new) {
        return Some(pair);
    }
    alternate_in(new, old, new)
}

/// Returns the first of these machines where the desks have another product selected.
fn selection_in(selected: &RowSet, old: &RowSet, new: &RowSet) -> Option<Id>
    ensures same { (machine : Name)
        → IfNone result (is_some ((tables_in selected.now).selected machine) ≡ true
        → (tables_in old.now).selected machine ≡ (tables_in new.now).selected machine) }
    ensures differs { IfSome result
        (λ machine. (tables_in old.now).selected machine ≢ (tables_in new.now).selected machine) }
{
    for (machine, _) in selected.selected() {
        if old.selected_on(machine) != new.selected_on(machine) {
            return Some(*machine);
        }
    }
    None
}

/// Returns the first machine where the desks have another product selected.
fn first_selection(old: &RowSet, new: &RowSet) -> Option<Id>
    ensures same { (machine : Name)
        → IfNone result ((tables_in old.now).selected machine
        ≡ (tables_in new.now).selected machine) }
    ensures differs { IfSome result
        (λ machine. (tables_in old.now).selected machine ≢ (tables_in new.now).selected machine) }
{
    if let Some(machine) = selection_in(old, old, new) {
        return Some(machine);
    }
    selection_in(new, old, new)
}

fn is_in_work(rows: &RowSet, board: &Id) -> bool
    ensures { result ≡ is_some (machine_at rows.now board.now) }
{
    match rows.board(board) {
        Some(row) => row.machine.is_some(),
        None => false,
    }
}

/// Returns the first board in work.
fn first_in_work(rows: &RowSet) -> Option<Id>
    ensures none { (board : Name) → IfNone result (is_some (machine_at rows.now board) ≡ false) }
    ensures some { IfSome result (λ board. is_some (machine_at rows.now board) ≡ true) }
{
    for (board, _) in rows.boards() {
        if is_in_work(rows, board) {
            return Some(*board);
        }
    }
    None
}

fn has_board(rows: &RowSet, board: &Id) -> bool
    ensures { result ≡ is_some ((tables_in rows.now).boards board.now) }
{
    rows.board(board).is_some()
}

fn is_new_board(old: &RowSet, new: &RowSet, board: &Id) -> bool
    ensures { result
        ≡ (is_some ((tables_in new.now).boards board.now)
        && not (is_some ((tables_in old.now).boards board.now))) }
{
    has_board(new, board) && !has_board(old, board)
}

/// Returns the first board that only the new desk has.
fn first_new_board(old: &RowSet, new: &RowSet) -> Option<Id>
    ensures known { (board : Name)
        → IfNone result (is_some ((tables_in new.now).boards board) ≡ true
        → is_some ((tables_in old.now).boards board) ≡ true) }
    ensures new { IfSome result
        (λ board. (is_some ((tables_in new.now).boards board) ≡ true)
        × (is_some ((tables_in old.now).boards board) ≡ false)) }
{
    for (board, _) in new.boards() {
        if is_new_board(old, new, board) {
            return Some(*board);
        }
    }
    None
}

/// Returns the first difference of the setup, except for sheets.
fn setup_difference(old: &RowSet, new: &RowSet) -> Option<Difference>
    ensures same { (H H' : History) → unnumbered (tables_in old.now) ≡ unnumbered (tables_of H)
        → unnumbered (tables_in new.now) ≡ unnumbered (tables_of H')
        → IfNone result (IsSetupAlike H H') }
    ensures differs { (H H' : History) → unnumbered (tables_in old.now) ≡ unnumbered (tables_of H)
        → unnumbered (tables_in new.now) ≡ unnumbered (tables_of H')
        → IfSome result (IsDifference H H') }
{
    if let Some(part) = first_part(old, new) {
        return Some(Difference::Part { part });
    }
    if let Some(pair) = first_alternate(old, new) {
        return Some(Difference::Alternate {
            part: pair.0,
            alternate: pair.1,
        });
    }
    if let Some(machine) = first_selection(old, new) {
        return Some(Difference::Selection { machine });
    }
    None
}

/// Returns the first board in work, or that only the new desk has started.
fn work_difference(old: &RowSet, new: &RowSet) -> Option<Difference>
    ensures same { (H H' : History) → IsJudged Two H → IsJudged Two H'
        → unnumbered (tables_in old.now) ≡ unnumbered (tables_of H)
        → unnumbered (tables_in new.now) ≡ unnumbered (tables_of H')
        → IfNone result (IsWorkAlike H H') }
    ensures differs { (H H' : History) → IsJudged Two H → IsJudged Two H'
        → unnumbered (tables_in old.now) ≡ unnumbered (tables_of H)
        → unnumbered (tables_in new.now) ≡ unnumbered (tables_of H')
        → IfSome result (IsDifference H H') }
{
    if let Some(board) = first_in_work(old) {
        return Some(Difference::OldWork { board });
    }
    if let Some(board) = first_in_work(new) {
        return Some(Difference::NewWork { board });
    }
    if let Some(board) = first_new_board(old, new) {
        return Some(Difference::Board { board });
    }
    None
}

/// Returns the first difference of the setup, except for sheets, or of the work.
pub fn tables_difference(old: &RowSet, new: &RowSet) -> Option<Difference>
    ensures same { (H H' : History) → IsJudged Two H → IsJudged Two H'
        → unnumbered (tables_in old.now) ≡ unnumbered (tables_of H)
        → unnumbered (tables_in new.now) ≡ unnumbered (tables_of H')
        → IfNone result (IsSetupAlike H H' × IsWorkAlike H H') }
    ensures differs { (H H' : History) → IsJudged Two H → IsJudged Two H'
        → unnumbered (tables_in old.now) ≡ unnumbered (tables_of H)
        → unnumbered (tables_in new.now) ≡ unnumbered (tables_of H')
        → IfSome result (IsDifference H H') }
{
    if let Some(found) = setup_difference(old, new) {
        return Some(found);
    }
    work_difference(old, new)
}
