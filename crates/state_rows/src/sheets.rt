//! Rows of sheets.

ghost use Rattle.std.specs.Prelude.{◌≡◌, ◌++◌, [], IfOk, OnOk, unwrap_or};
ghost use Rattle.desk_types.specs.History.{Basis};
ghost use Rattle.desk_types.specs.Setup.{sheet_of};
ghost use Rattle.state_rows.specs.EditsOf.{taken_rows, put_rows};

use crate::views::Views;
use desk_types::{Id, RowEdit, SheetRow};
use std::alloc::{AllocError, Global};

fn take_old(
    edits: &mut Vec<RowEdit>,
    product: &Id,
    machine: &Id,
    rows: &[SheetRow],
) -> Result<(), AllocError>
    ensures { OnOk result
        (edits.new.items ≡ edits.old.items ++ taken_rows product.now machine.now 1 rows.now) }
{
    for index in 0..rows.len() {
        let _ = &rows[index];
        edits.push(RowEdit::TakeSheetRow {
            product: *product,
            machine: *machine,
            place: index as u64 + 1,
        })?;
    }
    Ok(())
}

fn put_new(
    edits: &mut Vec<RowEdit>,
    product: &Id,
    machine: &Id,
    rows: &[SheetRow],
) -> Result<(), AllocError>
    ensures { OnOk result
        (edits.new.items ≡ edits.old.items ++ put_rows product.now machine.now 1 rows.now) }
{
    for index in 0..rows.len() {
        let row = rows[index].clone()?;
        edits.push(RowEdit::PutSheetRow {
            product: *product,
            machine: *machine,
            place: index as u64 + 1,
            row,
        })?;
    }
    Ok(())
}

/// The edits of a new sheet.
pub fn define<D: Views>(
    alloc: Global,
    desk: &D,
    product: &Id,
    machine: &Id,
    rows: &[SheetRow],
) -> Result<Vec<RowEdit>, AllocError>
    ensures { (B : Basis) → D.Stands desk.now B
        → IfOk result
        (λ edits. edits.items ≡ taken_rows product.now machine.now 1
        (unwrap_or (sheet_of B.history product.now machine.now) [])
        ++ put_rows product.now machine.now 1 rows.now) }
{
    let mut edits = Vec::new(alloc);
    match desk.sheet_of(product, machine)? {
        Some(old) => {
            take_old(&mut edits, product, machine, old.as_slice())?;
            put_new(&mut edits, product, machine, rows)?;
            Ok(edits)
        }
        None => {
            put_new(&mut edits, product, machine, rows)?;
            Ok(edits)
        }
    }
}
