//! The tape of a slot and its live reels. Entries and takes come oldest first.

ghost use Rattle.std.specs.Prelude.{◌≡◌, ◌<◌, ◌≤◌, ◌+◌, ◌^◌, List, length, reverse, slice_get, IfOk};
ghost use Rattle.desk_types.specs.Id.{Name};
ghost use Rattle.desk_types.specs.Tape.{tape_of, tape_after};
ghost use Rattle.desk_types.specs.Pieces.{live_on};
ghost use Rattle.look_back.specs.Kept.{AreTakes};

use crate::pieces::left_of;
use desk_types::{Command, Entry, Id, Takes};
use std::alloc::{AllocError, Global};

/// Returns the number of reels on the slot after the command.
fn count_after(machine: &Id, slot: &Id, command: &Command, count: usize) -> usize
    requires { count + 1 < 2 ^ 64 }
    ensures bound { result ≤ count + 1 }
    ensures value { (tape : List Name) → count ≡ length tape
        → result ≡ length (tape_after machine.now slot.now command.now tape) }
{
    match command {
        Command::MaterialsLoaded {
            machine: m,
            slot: s,
            ..
        } if *m == *machine && *s == *slot => 1,
        Command::MaterialsSpliced {
            machine: m,
            slot: s,
            ..
        } if *m == *machine && *s == *slot && count > 0 => count + 1,
        Command::MaterialsUnloaded {
            machine: m,
            slot: s,
        } if *m == *machine && *s == *slot => 0,
        _ => count,
    }
}

/// Returns the reel at this index on the slot after the command, given the number of reels and the
/// reel at the index before it.
fn reel_after(
    machine: &Id,
    slot: &Id,
    index: usize,
    command: &Command,
    count: usize,
    reel: Option<Id>,
) -> Option<Id>
    ensures { (tape : List Name) → count ≡ length tape → reel ≡ slice_get tape index
        → result ≡ slice_get (tape_after machine.now slot.now command.now tape) index }
{
    match command {
        Command::MaterialsLoaded {
            machine: m,
            slot: s,
            reel: loaded,
        } if *m == *machine && *s == *slot => { if index == 0 { Some(*loaded) } else { None } }
        Command::MaterialsSpliced {
            machine: m,
            slot: s,
            reel: spliced,
        } if *m == *machine && *s == *slot && count > 0 && index == count => Some(*spliced),
        Command::MaterialsUnloaded {
            machine: m,
            slot: s,
        } if *m == *machine && *s == *slot => None,
        _ => reel,
    }
}

/// Returns the number of reels on the slot's tape, spent ones included.
#[tactic(auto, unfolding(desk_types::specs::Tape::tape_of))]
pub fn reel_count(entries: &[Entry], machine: &Id, slot: &Id) -> usize
    ensures { result ≡ length (tape_of (reverse entries.now) machine.now slot.now) }
{
    let mut count = 0;
    for entry in entries {
        count = count_after(machine, slot, &entry.stamped.command, count);
    }
    count
}

/// Returns the reel at this index of the slot's tape, from 0.
#[tactic(auto, unfolding(desk_types::specs::Tape::tape_of))]
pub fn reel_at(entries: &[Entry], machine: &Id, slot: &Id, index: usize) -> Option<Id>
    ensures { result ≡ slice_get (tape_of (reverse entries.now) machine.now slot.now) index }
{
    let mut count = 0;
    let mut reel = None;
    for entry in entries {
        let command = &entry.stamped.command;
        reel = reel_after(machine, slot, index, command, count, reel);
        count = count_after(machine, slot, command, count);
    }
    reel
}

/// Returns the slot's live reels, front first.
pub fn live_on(
    alloc: Global,
    entries: &[Entry],
    takes: &[Takes],
    machine: &Id,
    slot: &Id,
) -> Result<Vec<Id>, AllocError>
    requires { AreTakes (reverse entries.now) (reverse takes.now) }
    ensures { IfOk result
        (λ reels. reels.items ≡ live_on (reverse entries.now) machine.now slot.now) }
{
    let mut live = Vec::new(alloc);
    for index in 0..reel_count(entries, machine, slot) {
        if let Some(reel) = reel_at(entries, machine, slot, index) {
            if left_of(entries, takes, &reel) > 0 {
                live.push(reel)?;
            }
        }
    }
    Ok(live)
}
