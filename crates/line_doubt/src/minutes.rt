//! Own minutes of commands and of pieces.

ghost use Rattle.std.specs.Prelude.{◌≡◌, ◌<◌, ◌≤◌, ◌-◌, length, map, All, IfOk};
ghost use Rattle.desk_types.specs.declared.limits.TheConstants.{GREATEST_MINUTE};
ghost use Rattle.desk_types.specs.declared.placement.Placement.{Placement};
ghost use Rattle.line_doubt.specs.Late.{minutes_of, own_minute};

use desk_types::{GREATEST_MINUTE, Placement, Stamped};
use std::alloc::{AllocError, Global};

/// Returns the own minute of each command.
pub fn minutes_of(alloc: Global, commands: &[Stamped]) -> Result<Vec<u64>, AllocError>
    ensures value { IfOk result (λ minutes. minutes.items ≡ minutes_of commands.now) }
    ensures range { IfOk result (λ minutes. All (λ m. m ≤ GREATEST_MINUTE) minutes.items) }
{
    let mut minutes = Vec::new(alloc);
    for i in 0..commands.len() {
        let stamped = &commands[i];
        let minute = stamped.minute.get();
        minutes.push(minute)?;
    }
    Ok(minutes)
}

/// Returns the own minute of each piece's install.
pub fn own_minutes(
    alloc: Global,
    minutes: &[u64],
    placed: &[Placement],
) -> Result<Vec<u64>, AllocError>
    requires { All (λ (p : Placement). (0 < p.number) × (p.number ≤ length minutes.now))
        placed.now }
    ensures { IfOk result (λ own. own.items ≡ map (own_minute minutes.now) placed.now) }
{
    let mut own = Vec::new(alloc);
    for piece in placed {
        let minute = minutes[piece.number as usize - 1];
        own.push(minute)?;
    }
    Ok(own)
}

/// Returns how far before the greatest minute each is.
pub fn minutes_left(alloc: Global, minutes: &[u64]) -> Result<Vec<u64>, AllocError>
    ensures { IfOk result (λ left. left.items ≡ map (λ m. GREATEST_MINUTE - m) minutes.now) }
{
    let mut left = Vec::new(alloc);
    for minute in minutes {
        left.push(GREATEST_MINUTE.saturating_sub(*minute))?;
    }
    Ok(left)
}
