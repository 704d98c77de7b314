//! Runs of pieces from one reel at a slot, and pieces close to a change of reel.

ghost use Rattle.std.specs.Prelude.{◌≡◌, ◌+◌, ◌&&◌, [], nat_lt, Some, IfOk, if◌then◌else◌};
ghost use Rattle.desk_types.specs.Id.{Name};
ghost use Rattle.line_doubt.specs.Runs.{close_flags, is_close, longer, reaches, run_after, run_in};

use desk_types::Id;
use std::alloc::{AllocError, Global};
use std::collections::BTreeMap;

/// A piece of a slot. It is of one tape with an earlier one if its `own` isn't above the other's
/// `kept`.
#[derive(Clone, Copy, PartialEq, Eq)]
pub struct Spot {
    pub machine: Id,
    pub slot: Id,
    pub reel: Id,
    pub own: u64,
    pub kept: u64,
}

/// The last pieces of a slot that are from one reel.
#[derive(Clone, Copy, PartialEq, Eq)]
pub struct Run {
    pub reel: Id,
    /// How many they are, up to the tolerance.
    pub count: u32,
    /// `kept` of the last of them.
    pub kept: u64,
    /// `kept` of the piece before them.
    pub before: Option<u64>,
}

/// Returns for each piece whether one of so many pieces of its slot before it is of the same tape
/// and from another reel.
pub fn are_close(alloc: Global, spots: &[Spot], within: u32) -> Result<Vec<bool>, AllocError>
    ensures { IfOk result (λ found. found.items ≡ close_flags within [] spots.now) }
{
    let mut runs = BTreeMap::new(alloc);
    let mut found = Vec::new(alloc);
    for spot in spots {
        let close = meet(&mut runs, within, spot)?;
        found.push(close)?;
    }
    Ok(found)
}

/// Returns whether the piece is close, and takes it in.
fn meet(runs: &mut BTreeMap<(Id, Id), Run>, within: u32, spot: &Spot) -> Result<bool, AllocError>
    ensures close { IfOk result (λ close. close
        ≡ is_close within (run_in runs.old spot.now.machine spot.now.slot) spot.now) }
    ensures runs { (machine slot : Name) → IfOk result (λ _. run_in runs.new machine slot
        ≡ run_after within machine slot spot.now (run_in runs.old machine slot)) }
{
    let run = run_in(runs, &spot.machine, &spot.slot);
    let new = longer(&run, within, spot);
    let close = is_close(&run, within, spot);
    runs.insert((spot.machine, spot.slot), new)?;
    Ok(close)
}

fn run_in(runs: &BTreeMap<(Id, Id), Run>, machine: &Id, slot: &Id) -> Option<Run>
    ensures { result ≡ run_in runs.now machine.now slot.now }
{
    match runs.get(&(*machine, *slot)) {
        Some(run) => Some(*run),
        None => None,
    }
}

fn is_close(run: &Option<Run>, within: u32, spot: &Spot) -> bool
    ensures { result ≡ is_close within run.now spot.now }
{
    match run {
        Some(run) => is_close_after(run, within, spot),
        None => false,
    }
}

fn is_close_after(run: &Run, within: u32, spot: &Spot) -> bool
    ensures { result ≡ is_close within (Some run.now) spot.now }
{
    if run.reel == spot.reel {
        return both(run.count < within, reaches(spot.own, run.before));
    }
    both(0 < within, spot.own <= run.kept)
}

fn reaches(own: u64, before: Option<u64>) -> bool
    ensures { result ≡ reaches own before }
{
    match before {
        Some(kept) => own <= kept,
        None => false,
    }
}

fn both(one: bool, other: bool) -> bool
    ensures { result ≡ (one && other) }
{
    one && other
}

fn longer(run: &Option<Run>, within: u32, spot: &Spot) -> Run
    ensures { result ≡ longer within run.now spot.now }
{
    match run {
        Some(run) => run_with(run, within, spot),
        None => Run {
            reel: spot.reel,
            count: 1,
            kept: spot.kept,
            before: None,
        },
    }
}

fn run_with(run: &Run, within: u32, spot: &Spot) -> Run
    ensures { result ≡ longer within (Some run.now) spot.now }
{
    if run.reel == spot.reel {
        return Run {
            reel: run.reel,
            count: one_more(run.count, within),
            kept: spot.kept,
            before: run.before,
        };
    }
    Run {
        reel: spot.reel,
        count: 1,
        kept: spot.kept,
        before: Some(run.kept),
    }
}

fn one_more(count: u32, within: u32) -> u32
    ensures { result ≡ (if nat_lt count within then count + 1 else count) }
{
    if count < within { count + 1 } else { count }
}
