//! The pieces left on a reel. Entries and takes come oldest first.

ghost use Rattle.std.specs.Prelude.{◌≡◌, ◌-◌, ◌^◌, ◌≤◌, min, reverse, IfSome};
ghost use Rattle.std.specs.Option.{option_map};
ghost use Rattle.std.specs.List.{find};
ghost use Rattle.desk_types.specs.declared.count.CountRow.{CountRow};
ghost use Rattle.desk_types.specs.Id.{same};
ghost use Rattle.desk_types.specs.Pieces.{pieces_by, left_of};
ghost use Rattle.look_back.specs.Kept.{AreTakes, pieces_taken};

use desk_types::{Command, CountRow, Entry, GREATEST_QUANTITY, Id, Take, Takes};

fn count_in(reel: &Id, rows: &[CountRow]) -> Option<u64>
    ensures value { result ≡ option_map (λ (row : CountRow). row.quantity)
        (find (λ row. same row.reel reel.now) rows.now) }
    ensures range { IfSome result (λ pieces. pieces ≤ GREATEST_QUANTITY) }
{
    let row = rows.iter().find(|row| row.reel == *reel)?;
    Some(row.quantity.get())
}

/// Returns the reel's pieces according to a receipt or a count.
fn told_by(reel: &Id, command: &Command) -> Option<u64>
    ensures value { result ≡ pieces_by reel.now command.now }
    ensures range { IfSome result (λ pieces. pieces ≤ GREATEST_QUANTITY) }
{
    match command {
        Command::ReelReceived {
            reel: r,
            quantity,
            ..
        } if *r == *reel => Some(quantity.get()),
        Command::CountsTaken { counts } => count_in(reel, counts.as_slice()),
        _ => None,
    }
}

/// Returns how many of the reel's pieces are taken, at most the greatest `u64`.
fn pieces_taken(takes: &[Take], reel: &Id) -> u64
    ensures { result ≡ min (pieces_taken takes.now reel.now) (2 ^ 64 - 1) }
{
    let mut pieces = 0u64;
    for take in takes {
        if take.reel == *reel {
            pieces = pieces.saturating_add(take.quantity);
        }
    }
    pieces
}

/// Returns the pieces left on the reel: its last receipt or count, less later takes.
pub fn left_of(entries: &[Entry], takes: &[Takes], reel: &Id) -> u64
    requires { AreTakes (reverse entries.now) (reverse takes.now) }
    ensures { result ≡ left_of (reverse entries.now) reel.now }
{
    let mut gone = 0u64;
    let mut rest = entries;
    let mut kept = takes;
    while let Some((entry, before)) = rest.split_last() {
        if let Some(pieces) = told_by(reel, &entry.stamped.command) {
            return pieces.saturating_sub(gone);
        }
        if let Some((last, earlier)) = kept.split_last() {
            gone = gone.saturating_add(pieces_taken(last.as_slice(), reel));
            kept = earlier;
        }
        rest = before;
    }
    0
}
