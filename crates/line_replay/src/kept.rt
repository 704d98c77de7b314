//! The row of an accepted command.

ghost use Rattle.std.specs.Prelude.{◌≡◌, IfOk, IfErr, IsUtf8, string_bytes};
ghost use Rattle.std.specs.List.Sorted.{IsPermutation};
ghost use Rattle.desk_types.specs.declared.rules.Rules.{Rules};
ghost use Rattle.desk_types.specs.History.{History};
ghost use Rattle.desk_types.specs.Judged.{IsJudged};
ghost use Rattle.line_tables.specs.Rows.{columns_of};
ghost use Rattle.line_replay.specs.Rows.{columns, rows_of};

use crate::row_fault::NoRow;
use desk_types::{Change, Text};
use line_tables::Accepted;
use std::alloc::Global;

/// Returns the row of the change, with this number and this answer.
pub fn row_of(alloc: Global, number: u32, change: &Change, answer: &Text) -> Result<Accepted, NoRow>
    ensures { IfOk result
        (λ row. columns_of row ≡ columns number change.now.stamped change.now.minute answer.now) }
{
    let command = change.stamped.command.write_text(alloc)?;
    Ok(Accepted {
        number,
        uid: String::from_str(alloc, change.stamped.uid.as_str())?,
        source: String::from_str(alloc, change.stamped.source.as_str())?,
        own: change.stamped.minute.get() as u32,
        effective: change.minute.get() as u32,
        command: string_of(command.into_vec())?,
        detail: string_of(answer.as_slice().to_vec(alloc)?)?,
    })
}

fn string_of(bytes: Vec<u8>) -> Result<String, NoRow>
    ensures ok { IfOk result (λ text. string_bytes text ≡ bytes.items) }
    ensures err { IfErr result (λ _. ¬ IsUtf8 bytes.items) }
{
    match String::from_utf8(bytes) {
        Ok(text) => Ok(text),
        Err(_) => Err(NoRow),
    }
}

/// A law: two judged histories with the same rows, in any order, are equal. It serves proofs and does nothing when it
/// runs.
pub fn rows_tell_lists_apart()
    ensures { (rules : Rules) (G H : History) → IsJudged rules G → IsJudged rules H
        → IsPermutation (rows_of G) (rows_of H) → G ≡ H }
{}
