//! The alternates named in the entries.

ghost use Rattle.std.specs.Prelude.{◌≡◌, ◌||◌, reverse, IfOk, OnOk};
ghost use Rattle.desk_types.specs.Id.{Name};
ghost use Rattle.desk_types.specs.Setup.{allows};
ghost use Rattle.setup_sheets.specs.Alternates.{is_pair_among, AreAlternates};

use desk_types::{Command, Entry};
use setup_sheets::Alternates;
use std::alloc::{AllocError, Global};

/// Returns the alternates named in the entries.
pub fn alternates_of(alloc: Global, entries: &[Entry]) -> Result<Alternates, AllocError>
    ensures { IfOk result (λ alternates. AreAlternates (reverse entries.now) alternates) }
{
    let mut alternates = Alternates::new(alloc);
    for entry in entries {
        note_alternate(&mut alternates, &entry.stamped.command)?;
    }
    Ok(alternates)
}

fn note_alternate(alternates: &mut Alternates, command: &Command) -> Result<(), AllocError>
    ensures { OnOk result ((p q : Name)
        → is_pair_among alternates.new p q
        ≡ (allows p q command.now || is_pair_among alternates.old p q)) }
{
    if let Command::AlternateAllowed { part, alternate } = command {
        alternates.add(*part, *alternate)?;
    }
    Ok(())
}
