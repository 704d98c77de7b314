//! Sheets on two desks.

ghost use Rattle.std.specs.Prelude.{◌≡◌, ◌≢◌, ◌↔◌, true, false, is_some, IsTrue, IfNone, IfSome};
ghost use Rattle.desk_types.specs.declared.rules.Rules.TheVariants.{Two};
ghost use Rattle.desk_types.specs.Id.{Name};
ghost use Rattle.desk_types.specs.History.{History};
ghost use Rattle.desk_types.specs.Judged.{IsJudged};
ghost use Rattle.desk_types.specs.Setup.{sheet_of};
ghost use Rattle.desk_types.specs.Tables.{tables_of};
ghost use Rattle.state_rows.specs.Kept.{tables_in, unnumbered};

use desk_types::{Id, SheetRows};
use judging::Facts;
use state_rows::RowSet;

fn same_rows(old: &SheetRows, new: &SheetRows) -> bool
    ensures { IsTrue result ↔ (old.now ≡ new.now) }
{
    old == new
}

/// Returns whether the product has the same sheet on the machine on both desks, or none.
fn same_sheet<F: Facts>(old: &F, new: &F, product: &Id, machine: &Id) -> bool
    ensures { (H H' : History) → F.Stands old.now H → F.Stands new.now H'
        → IsTrue result
        ↔ (sheet_of H product.now machine.now ≡ sheet_of H' product.now machine.now) }
{
    match (
        old.sheet_of(product, machine),
        new.sheet_of(product, machine),
    ) {
        (Some(of_old), Some(of_new)) => same_rows(of_old, of_new),
        (None, None) => true,
        _ => false,
    }
}

/// Returns whether this is the first row of a sheet that differs.
fn is_changed<F: Facts>(old: &F, new: &F, key: &(Id, Id, u64)) -> bool
    ensures same { (H H' : History) → F.Stands old.now H → F.Stands new.now H'
        → result ≡ false → key.now.2 ≡ 1
        → sheet_of H key.now.0 key.now.1 ≡ sheet_of H' key.now.0 key.now.1 }
    ensures differs { (H H' : History) → F.Stands old.now H → F.Stands new.now H' → result ≡ true
        → sheet_of H key.now.0 key.now.1 ≢ sheet_of H' key.now.0 key.now.1 }
{
    key.2 == 1 && !same_sheet(old, new, &key.0, &key.1)
}

/// Returns the first of these sheets that differs, by its product and its machine.
fn sheet_in<F: Facts>(sheets: &RowSet, old: &F, new: &F) -> Option<(Id, Id)>
    ensures same { (G H H' : History) → IsJudged Two G
        → unnumbered (tables_in sheets.now) ≡ unnumbered (tables_of G)
        → F.Stands old.now H → F.Stands new.now H'
        → (product machine : Name)
        → IfNone result (is_some (sheet_of G product machine) ≡ true
        → sheet_of H product machine ≡ sheet_of H' product machine) }
    ensures differs { (H H' : History) → F.Stands old.now H → F.Stands new.now H'
        → IfSome result (λ k. sheet_of H k.0 k.1 ≢ sheet_of H' k.0 k.1) }
{
    for (key, _) in sheets.sheets() {
        if is_changed(old, new, key) {
            return Some((key.0, key.1));
        }
    }
    None
}

/// Returns the first sheet that differs, by its product and its machine. The rows are those of the desks.
pub fn first_sheet<F: Facts>(
    old_rows: &RowSet,
    new_rows: &RowSet,
    old: &F,
    new: &F,
) -> Option<(Id, Id)>
    ensures same { (H H' : History) → unnumbered (tables_in old_rows.now) ≡ unnumbered (tables_of H)
        → unnumbered (tables_in new_rows.now) ≡ unnumbered (tables_of H')
        → F.Stands old.now H → F.Stands new.now H'
        → (product machine : Name)
        → IfNone result (sheet_of H product machine ≡ sheet_of H' product machine) }
    ensures differs { (H H' : History) → F.Stands old.now H → F.Stands new.now H'
        → IfSome result (λ k. sheet_of H k.0 k.1 ≢ sheet_of H' k.0 k.1) }
{
    if let Some(key) = sheet_in(old_rows, old, new) {
        return Some(key);
    }
    sheet_in(new_rows, old, new)
}
