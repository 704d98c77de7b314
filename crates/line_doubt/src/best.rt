//! The mark with the greatest value of each slot.

ghost use Rattle.std.specs.Prelude.{◌≡◌, ◌≤◌, ℕ, length, map, nat_lt, Some, IfOk, OnOk, if◌then◌else◌};
ghost use Rattle.desk_types.specs.Id.{Name};
ghost use Rattle.line_doubt.specs.Marks.{AreTaken, AsksRise, MarksRise, best_before, best_in, better, mark_at};

use crate::mark::{Ask, Mark};
use desk_types::Id;
use std::alloc::{AllocError, Global};
use std::collections::BTreeMap;

/// Returns for each question the mark with the greatest value at the slot before the place. Both
/// lists come in the order of their places.
pub fn best_before(
    alloc: Global,
    marks: &[Mark],
    asks: &[Ask],
) -> Result<Vec<Option<Mark>>, AllocError>
    requires marks { MarksRise 0 marks.now }
    requires asks { AsksRise 0 asks.now }
    ensures { IfOk result (λ found. found.items ≡ map (best_before marks.now) asks.now) }
{
    let mut best = BTreeMap::new(alloc);
    let mut found = Vec::new(alloc);
    let mut at = 0;
    for ask in asks {
        at = take_in(&mut best, marks, at, ask.at)?;
        found.push(best_in(&best, &ask.machine, &ask.slot))?;
    }
    Ok(found)
}

/// Takes in the marks before the place, from the one at `from` on.
fn take_in(
    best: &mut BTreeMap<(Id, Id), Mark>,
    marks: &[Mark],
    from: usize,
    to: u64,
) -> Result<usize, AllocError>
    requires { from ≤ length marks.now }
    ensures within { IfOk result (λ at. at ≤ length marks.now) }
    ensures taken { (before : ℕ) → before ≤ to → AreTaken marks.now before from best.old
        → IfOk result (λ at. AreTaken marks.now to at best.new) }
{
    for at in from..marks.len() {
        let mark = &marks[at];
        if mark.at >= to {
            return Ok(at);
        }
        raise(best, mark)?;
    }
    Ok(marks.len())
}

fn raise(best: &mut BTreeMap<(Id, Id), Mark>, mark: &Mark) -> Result<(), AllocError>
    ensures { (machine slot : Name) → OnOk result (best_in best.new machine slot
        ≡ better (best_in best.old machine slot) (mark_at machine slot mark.now)) }
{
    let old = best_in(best, &mark.machine, &mark.slot);
    let new = better(old, *mark);
    best.insert((mark.machine, mark.slot), new)?;
    Ok(())
}

fn better(old: Option<Mark>, mark: Mark) -> Mark
    ensures { Some result ≡ better old (Some mark) }
{
    match old {
        Some(old) => greater(old, mark),
        None => mark,
    }
}

fn greater(a: Mark, b: Mark) -> Mark
    ensures { result ≡ (if nat_lt a.value b.value then b else a) }
{
    if a.value < b.value { b } else { a }
}

fn best_in(best: &BTreeMap<(Id, Id), Mark>, machine: &Id, slot: &Id) -> Option<Mark>
    ensures { result ≡ best_in best.now machine.now slot.now }
{
    match best.get(&(*machine, *slot)) {
        Some(mark) => Some(*mark),
        None => None,
    }
}
