//! The comparison of two files.

ghost use Rattle.std.specs.Prelude.{◌≡◌, ◌⊎◌, ◌∷◌, []};
ghost use Rattle.desk_commands.specs.Told.{TellsUnwritten};
ghost use Rattle.desk_commands.specs.Wires.{HaveFewFailures};
ghost use Rattle.chain_files.specs.Compared.{Finds, NoDesk, Shows, ShowsFront, placed_both};
ghost use Rattle.chain_files.specs.Files.{files_in};
ghost use Rattle.chain_files.specs.Kept.{AreKept};

use crate::chain::look_at;
use crate::closed::ClosedChain;
use crate::compared::{Compared, Side};
use crate::opener::Opener;
use crate::telling::tell_found;
use chain_check::{Question, first_difference};
use desk_types::Wire;
use sqlite_disk::Disk;
use state_rows::KeepsRows;
use std::io::Write;

/// Compares the desks in two files, and prints what it found. Returns the exit status and the files that it closed, which
/// clauses name: the old file, and then the new one.
pub fn alike<'a, O: Opener<'a>, W: Write, E: Write>(
    rt: &HostRuntime,
    opener: &mut O,
    old: &'a str,
    new: &'a str,
    output: &mut Wire<W>,
    errors: &mut Wire<E>,
) -> (u8, ClosedChain<O::File>)
    requires few { HaveFewFailures output.old errors.old }
    ensures status { (result.0 ≡ 0) ⊎ (result.0 ≡ 1) ⊎ (result.0 ≡ 3) ⊎ (result.0 ≡ 4) }
    ensures shown { (result.0 ≡ 0) ⊎ (result.0 ≡ 1)
        → Shows (Finds ⟦<O::File as Disk>⟧ (placed_both (O.image opener.old) old.now new.now)
        (files_in result.1))
        W.contents output.old output.new result.0 }
    ensures no_desk { result.0 ≡ 3
        → NoDesk (Finds ⟦<O::File as Disk>⟧ (placed_both (O.image opener.old) old.now new.now)
        (files_in result.1))
        E.contents output.old output.new errors.old errors.new }
    ensures failed { result.0 ≡ 4
        → TellsUnwritten E.contents output.old output.new errors.old errors.new
        × ShowsFront (Finds ⟦<O::File as Disk>⟧ (placed_both (O.image opener.old) old.now new.now)
        (files_in result.1)) W.contents output.old output.new }
    ensures kept { AreKept ⟦<O::File as Disk>⟧ (O.image opener.old) (old.now ∷ new.now ∷ [])
        (O.opened opener.old) (O.opened opener.new) (files_in result.1) }
{
    let mut closed = ClosedChain::new();
    let found = compare_files(rt, opener, old, new, &mut closed);
    let status = tell_found(rt.alloc(), &found, output, errors);
    (status, closed)
}

/// Compares the desks in two files, and closes both. Neither is made if it is missing.
fn compare_files<'a, O: Opener<'a>>(
    rt: &HostRuntime,
    opener: &mut O,
    old: &'a str,
    new: &'a str,
    closed: &mut ClosedChain<O::File>,
) -> Compared
    requires none { files_in closed.old ≡ [] }
    ensures found { Finds ⟦<O::File as Disk>⟧ (placed_both (O.image opener.old) old.now new.now)
        (files_in closed.new) result }
    ensures kept { AreKept ⟦<O::File as Disk>⟧ (O.image opener.old) (old.now ∷ new.now ∷ [])
        (O.opened opener.old) (O.opened opener.new) (files_in closed.new) }
{
    let first = match look_at(rt, opener, 0, old, &Question::Chain, true, closed) {
        Ok(first) => first,
        Err(fault) => {
            return Compared::Refused {
                side: Side::Old,
                fault,
            };
        }
    };
    let second = match look_at(rt, opener, 1, new, &Question::Chain, true, closed) {
        Ok(second) => second,
        Err(fault) => {
            return Compared::Refused {
                side: Side::New,
                fault,
            };
        }
    };
    match first_difference(&first.looked.whole, &second.looked.whole) {
        Some(difference) => Compared::Differs(difference),
        None => {
            let rows = second.looked.whole.rows();
            Compared::Alike {
                reels: rows.reels().len() as u64,
                mounts: rows.mounts().len() as u64,
            }
        }
    }
}
