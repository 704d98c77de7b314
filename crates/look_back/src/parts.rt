//! The parts defined in the entries.

ghost use Rattle.std.specs.Prelude.{◌≡◌, ◌||◌, reverse, IfOk, OnOk};
ghost use Rattle.desk_types.specs.Id.{Name};
ghost use Rattle.desk_types.specs.Setup.{defines, is_part};
ghost use Rattle.setup_sheets.specs.Names.{is_among};

use desk_types::{Command, Entry};
use setup_sheets::Parts;
use std::alloc::{AllocError, Global};

/// Returns the parts defined in the entries.
pub fn parts_of(alloc: Global, entries: &[Entry]) -> Result<Parts, AllocError>
    ensures { IfOk result
        (λ parts. (p : Name) → is_among parts p ≡ is_part (reverse entries.now) p) }
{
    let mut parts = Parts::new(alloc);
    for entry in entries {
        note_part(&mut parts, &entry.stamped.command)?;
    }
    Ok(parts)
}

fn note_part(parts: &mut Parts, command: &Command) -> Result<(), AllocError>
    ensures { OnOk result ((p : Name)
        → is_among parts.new p ≡ (defines p command.now || is_among parts.old p)) }
{
    if let Command::PartDefined { part } = command {
        parts.add(*part)?;
    }
    Ok(())
}
