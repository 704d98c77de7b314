//! The live reels on a machine's slots. Entries and takes come oldest first.

ghost use Rattle.std.specs.Prelude.{◌≡◌, ◌≤◌, ◌++◌, length, map, reverse, All, IfOk, OnOk};
ghost use Rattle.std.specs.List.{enumerate_from};
ghost use Rattle.desk_types.specs.declared.limits.TheConstants.{MOST_ENTRIES};
ghost use Rattle.desk_types.specs.declared.rules.Rules.TheVariants.{Two};
ghost use Rattle.desk_types.specs.Judged.{IsJudged};
ghost use Rattle.desk_types.specs.View.{defines_on, has_sheet, slot_by, loaded_slots, mount_of, mounts_on};
ghost use Rattle.judging.specs.Facts.{IsKnownReel};
ghost use Rattle.look_back.specs.Kept.{AreTakes};

use crate::tapes::live_on;
use crate::views::reel_view;
use desk_types::{Command, Entry, Id, Listing, Mount, Mounts, Takes};
use judging::sets::insert_if;
use std::alloc::{AllocError, Global};
use std::collections::BTreeSet;

fn defines_on(machine: &Id, command: &Command) -> bool
    ensures { result ≡ defines_on machine.now command.now }
{
    match command {
        Command::SheetDefined { machine: at, .. } => *at == *machine,
        _ => false,
    }
}

fn has_sheet(entries: &[Entry], machine: &Id) -> bool
    ensures { result ≡ has_sheet (reverse entries.now) machine.now }
{
    entries
        .iter()
        .rev()
        .any(|entry| defines_on(machine, &entry.stamped.command))
}

fn slot_by(machine: &Id, command: &Command) -> Option<Id>
    ensures { result ≡ slot_by machine.now command.now }
{
    match command {
        Command::MaterialsLoaded {
            machine: at,
            slot,
            ..
        } if *at == *machine => Some(*slot),
        _ => None,
    }
}

/// Returns the machine's loaded slots in byte order, without duplicates.
fn loaded_slots(alloc: Global, entries: &[Entry], machine: &Id) -> Result<Vec<Id>, AllocError>
    ensures { IfOk result (λ slots. slots.items ≡ loaded_slots (reverse entries.now) machine.now) }
{
    let mut slots = BTreeSet::new(alloc);
    for entry in entries {
        insert_if(&mut slots, slot_by(machine, &entry.stamped.command))?;
    }
    slots.into_iter().collect(alloc)
}

fn mount(entries: &[Entry], takes: &[Takes], slot: &Id, position: u64, reel: &Id) -> Mount
    requires most { length entries.now ≤ MOST_ENTRIES }
    requires judged { IsJudged Two (reverse entries.now) }
    requires takes { AreTakes (reverse entries.now) (reverse takes.now) }
    requires received { IsKnownReel (reverse entries.now) reel.now }
    ensures { result ≡ mount_of (reverse entries.now) slot.now (position, reel.now) }
{
    let Some(view) = reel_view(entries, takes, reel) else {
        unreachable!()
    };
    Mount {
        slot: *slot,
        position,
        reel: *reel,
        part: view.part,
        lot: view.lot,
        remaining: view.remaining,
        left: view.left,
    }
}

/// Appends a slot's live reels, front first.
fn put_mounts(
    mounts: &mut Vec<Mount>,
    entries: &[Entry],
    takes: &[Takes],
    slot: &Id,
    reels: &[Id],
) -> Result<(), AllocError>
    requires most { length entries.now ≤ MOST_ENTRIES }
    requires judged { IsJudged Two (reverse entries.now) }
    requires takes { AreTakes (reverse entries.now) (reverse takes.now) }
    requires received { All (IsKnownReel (reverse entries.now)) reels.now }
    ensures { OnOk result (mounts.new.items ≡ mounts.old.items
        ++ map (mount_of (reverse entries.now) slot.now) (enumerate_from 1 reels.now)) }
{
    for (index, reel) in reels.iter().enumerate() {
        mounts.push(mount(entries, takes, slot, index as u64 + 1, reel))?;
    }
    Ok(())
}

/// Returns the live reels on the machine's slots, by slot and position, or none if no sheet is for
/// the machine.
pub fn slots_of(
    alloc: Global,
    entries: &[Entry],
    takes: &[Takes],
    machine: &Id,
) -> Result<Option<Mounts>, AllocError>
    requires most { length entries.now ≤ MOST_ENTRIES }
    requires judged { IsJudged Two (reverse entries.now) }
    requires takes { AreTakes (reverse entries.now) (reverse takes.now) }
    ensures { IfOk result (λ mounts. mounts ≡ mounts_on (reverse entries.now) machine.now) }
{
    if !has_sheet(entries, machine) {
        return Ok(None);
    }
    let slots = loaded_slots(alloc, entries, machine)?;
    let mut mounts = Vec::new(alloc);
    for slot in &slots {
        let reels = live_on(alloc, entries, takes, machine, slot)?;
        put_mounts(&mut mounts, entries, takes, slot, reels.as_slice())?;
    }
    Ok(Some(Listing::new(mounts)))
}
