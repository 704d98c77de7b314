//! Feeder verification: checks that each slot of a sheet has a reel that may feed it.

ghost use Rattle.std.specs.Prelude.{◌≡◌, ◌≤◌, None, Some, OnOk, IfErr};
ghost use Rattle.desk_types.specs.declared.rules.Rules.{Rules};
ghost use Rattle.desk_types.specs.Id.{Name};
ghost use Rattle.desk_types.specs.History.{History, now_of};
ghost use Rattle.desk_types.specs.Judged.{IsJudged};
ghost use Rattle.desk_types.specs.Refusals.{slots_of_rows, slots_refusal};
ghost use Rattle.setup_sheets.specs.Alternates.{AreAlternates};
ghost use Rattle.setup_sheets.specs.Verification.{first_fault, front_fault, slots_of_fronts, AreFronts};

use crate::alternates::{Alternates, allowed};
use desk_types::{Front, FrontReel, Fronts, Id, Life, Minute, Refusal, SheetRow, SheetRows};

/// Checks the front reels before a start of work, without taking memory.
///
/// It reports the first faulty slot in sheet order with `SlotEmpty`, `WrongPart`, `NotBaked` or `Expired`, tested in
/// this order. Given the selected product's sheet, and the fronts and alternates of an accepted history, it agrees with
/// a start of work at or after the desk minute.
pub fn verify(
    rows: &SheetRows,
    fronts: &Fronts,
    alternates: &Alternates,
    at: Minute,
) -> Result<(), (Id, Refusal)>
    // `fronts` of `judging` gives it: one front for each row, in sheet order.
    requires { slots_of_fronts fronts.now ≡ slots_of_rows rows.now }
    ensures ok { OnOk result (first_fault alternates.now at rows.now fronts.now ≡ None) }
    ensures fault { IfErr result
        (λ fault. first_fault alternates.now at rows.now fronts.now ≡ Some fault) }
    // No start of work is judged for a minute before the desk's.
    ensures slots_ready { (rules : Rules) (H : History) (machine : Name)
        → IsJudged rules H → now_of H ≤ at
        → AreAlternates H alternates.now → AreFronts H machine rows.now fronts.now
        → OnOk result (slots_refusal H at machine rows.now ≡ None) }
    // The refusal names the slot itself, so the slot that comes with it isn't compared.
    ensures slots_at_fault { (rules : Rules) (H : History) (machine : Name)
        → IsJudged rules H → now_of H ≤ at
        → AreAlternates H alternates.now → AreFronts H machine rows.now fronts.now
        → IfErr result (λ fault. slots_refusal H at machine rows.now ≡ Some fault.1) }
{
    match first_faulty(rows.as_slice(), fronts.as_slice(), alternates, at) {
        Some(fault) => Err(fault),
        None => Ok(()),
    }
}

fn first_faulty(
    rows: &[SheetRow],
    fronts: &[Front],
    alternates: &Alternates,
    at: Minute,
) -> Option<(Id, Refusal)>
    requires { slots_of_fronts fronts.now ≡ slots_of_rows rows.now }
    ensures { result ≡ first_fault alternates.now at rows.now fronts.now }
{
    for i in 0..rows.len() {
        let row = &rows[i];
        if let Some(refusal) = front_fault(row, &fronts[i], alternates, at) {
            return Some((row.slot, refusal));
        }
    }
    None
}

fn front_fault(
    row: &SheetRow,
    front: &Front,
    alternates: &Alternates,
    at: Minute,
) -> Option<Refusal>
    ensures { result ≡ front_fault alternates.now at row.now front.now.reel }
{
    match &front.reel {
        None => Some(Refusal::SlotEmpty(row.slot)),
        Some(reel) => reel_fault(row, reel, alternates, at),
    }
}

fn reel_fault(
    row: &SheetRow,
    reel: &FrontReel,
    alternates: &Alternates,
    at: Minute,
) -> Option<Refusal>
    ensures { result ≡ front_fault alternates.now at row.now (Some reel.now) }
{
    if !allowed(alternates, &row.part, &reel.part) {
        return Some(Refusal::WrongPart(row.slot));
    }
    match reel.life {
        Life::Unlimited => None,
        Life::Unbaked => Some(Refusal::NotBaked(row.slot)),
        Life::Until(end) if at.get() >= end => Some(Refusal::Expired(row.slot)),
        Life::Until(_) => None,
    }
}
