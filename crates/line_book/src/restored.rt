//! The guard of two lists, after a restart.

ghost use Rattle.std.specs.Prelude.{◌≡◌, ◌≤◌, length, take, IfOk, OnOk};
ghost use Rattle.line_book.specs.Book.{Book};
ghost use Rattle.line_book.specs.Guard.{IsGuard};
ghost use Rattle.line_book.specs.Restored.{history_of, IsBook};

use crate::guard::Guard;
use crate::note::Note;
use desk_types::Stamped;
use std::alloc::{AllocError, Global};

/// Returns the guard of the accepted commands and the book. Open entries outlive a restart, because
/// they are found again from the two lists.
pub fn restore(alloc: Global, commands: &[Stamped], notes: &[Note]) -> Result<Guard, AllocError>
    requires { IsBook (length commands.now) notes.now }
    ensures { IfOk result (IsGuard (history_of commands.now) notes.now) }
{
    let mut guard = Guard::new(alloc);
    let mut at = 0;
    for note in notes {
        at = advance(&mut guard, commands, at, note.after as usize)?;
        guard.noted(note)?;
    }
    let _end = advance(&mut guard, commands, at, commands.len())?;
    Ok(guard)
}

/// Takes in the commands from one place up to another.
fn advance(
    guard: &mut Guard,
    commands: &[Stamped],
    from: usize,
    to: usize,
) -> Result<usize, AllocError>
    requires order { from ≤ to }
    requires within { to ≤ length commands.now }
    ensures place { IfOk result (λ at. at ≡ to) }
    ensures guard { (B : Book) → IsGuard (history_of (take from commands.now)) B guard.old
        → OnOk result (IsGuard (history_of (take to commands.now)) B guard.new) }
{
    for i in from..to {
        guard.accepted(&commands[i])?;
    }
    Ok(to)
}
