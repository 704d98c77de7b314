//! Lists in the order of the history.

ghost use Rattle.std.specs.Prelude.{◌≡◌, ℕ, List, length, true};
ghost use Rattle.desk_types.specs.declared.command.Stamped.{Stamped};
ghost use Rattle.desk_types.specs.Placements.{placements_of};
ghost use Rattle.line_book.specs.Book.{Book};
ghost use Rattle.line_book.specs.Restored.{IsBook, history_of};
ghost use Rattle.line_doubt.specs.Order.{notes_rise, pieces_rise};

use desk_types::Placement;
use line_book::Note;

/// Returns whether the places of the entries don't fall and are within so many commands.
pub fn notes_rise(commands: usize, book: &[Note]) -> bool
    ensures { result ≡ notes_rise commands book.now }
{
    let mut last = 0;
    for note in book {
        if note.after < last || note.after as usize > commands {
            return false;
        }
        last = note.after;
    }
    true
}

/// Returns whether the installs of the pieces don't fall and are among so many commands.
pub fn pieces_rise(commands: usize, placed: &[Placement]) -> bool
    ensures { result ≡ pieces_rise commands placed.now }
{
    let mut last = 1;
    for piece in placed {
        if piece.number < last || piece.number > commands as u64 {
            return false;
        }
        last = piece.number;
    }
    true
}

/// A law, for proofs: both lists of a file are in order.
pub fn lists_rise()
    ensures book { (commands : ℕ) (B : Book) → IsBook commands B → notes_rise commands B ≡ true }
    ensures placements { (commands : List Stamped)
        → pieces_rise (length commands) (placements_of (history_of commands)) ≡ true }
{}
