//! Whether a reel is live on a slot. Entries and takes come oldest first.

ghost use Rattle.std.specs.Prelude.{◌≡◌, reverse};
ghost use Rattle.std.specs.List.{list_any};
ghost use Rattle.desk_types.specs.Id.{same};
ghost use Rattle.desk_types.specs.Tape.{tape_of};
ghost use Rattle.desk_types.specs.Pieces.{live_on, is_live_where_loaded, is_mounted};
ghost use Rattle.look_back.specs.Kept.{AreTakes};

use crate::pieces::left_of;
use crate::tapes::{reel_at, reel_count};
use desk_types::{Command, Entry, Id, Takes};

/// Returns whether the reel is on the slot's tape, spent or not.
fn is_on_tape(entries: &[Entry], machine: &Id, slot: &Id, reel: &Id) -> bool
    ensures { result
        ≡ list_any (same reel.now) (tape_of (reverse entries.now) machine.now slot.now) }
{
    for index in 0..reel_count(entries, machine, slot) {
        if let Some(other) = reel_at(entries, machine, slot, index) {
            if *reel == other {
                return true;
            }
        }
    }
    false
}

fn is_live_on(entries: &[Entry], takes: &[Takes], machine: &Id, slot: &Id, reel: &Id) -> bool
    requires { AreTakes (reverse entries.now) (reverse takes.now) }
    ensures { result
        ≡ list_any (same reel.now) (live_on (reverse entries.now) machine.now slot.now) }
{
    left_of(entries, takes, reel) > 0 && is_on_tape(entries, machine, slot, reel)
}

fn is_live_where_loaded(entries: &[Entry], takes: &[Takes], reel: &Id, command: &Command) -> bool
    requires { AreTakes (reverse entries.now) (reverse takes.now) }
    ensures { result ≡ is_live_where_loaded (reverse entries.now) reel.now command.now }
{
    match command {
        Command::MaterialsLoaded { machine, slot, .. } => is_live_on(
            entries, takes, machine, slot, reel,
        ),
        _ => false,
    }
}

/// Returns whether the reel is live on some slot. Takes no memory.
pub fn is_mounted(entries: &[Entry], takes: &[Takes], reel: &Id) -> bool
    requires { AreTakes (reverse entries.now) (reverse takes.now) }
    ensures { result ≡ is_mounted (reverse entries.now) reel.now }
{
    let mut mounted = false;
    for entry in entries {
        mounted = mounted || is_live_where_loaded(entries, takes, reel, &entry.stamped.command);
    }
    mounted
}
