//! The trace indexes.

ghost use Rattle.std.specs.Prelude.{◌≡◌, ◌+◌, [], map, length, OnOk};
ghost use Rattle.desk_types.specs.Id.{same};
ghost use Rattle.desk_types.specs.History.{History, accept};
ghost use Rattle.desk_types.specs.Outcome.{change_of};
ghost use Rattle.state_rows.specs.Lists.{HasRoomFor, IsListed, key_of, keys_of_installs, keys_where, minute_of};

use crate::kept::{KeptList, kept_under};
use crate::noting::{note_install, note_pieces, room_for_install, room_for_pieces};
use desk_types::{Change, Id, Minute};
use std::alloc::{AllocError, Global};
use std::collections::BTreeMap;

/// A placed piece's key: its entry's number and its place in the message, both from 1.
#[derive(Clone, Copy, PartialEq, Eq)]
pub struct PieceKey {
    pub number: u32,
    pub place: u32,
}

/// An install on a board: its entry's number and how many pieces it placed, in places from 1.
#[derive(Clone, Copy, PartialEq, Eq)]
pub struct Install {
    pub number: u32,
    pub pieces: u32,
}

/// The placed pieces of each lot, the installs on each board, the overdue pieces, and the effective
/// minutes of the entries, each oldest first. A piece takes 8 bytes in its lot and 8 more if it is
/// overdue, an install 8, and an entry 4.
#[derive(Drop)]
pub struct TraceLists {
    alloc: Global,
    lots: BTreeMap<Id, KeptList<PieceKey>>,
    boards: BTreeMap<Id, KeptList<Install>>,
    overdue: Vec<PieceKey>,
    minutes: Vec<u32>,
}

impl TraceLists {
    /// Returns the indexes of an empty history. Takes no memory.
    pub fn new(alloc: Global) -> TraceLists
        ensures listed { IsListed result [] }
    {
        TraceLists {
            alloc,
            lots: BTreeMap::new(alloc),
            boards: BTreeMap::new(alloc),
            overdue: Vec::new(alloc),
            minutes: Vec::new(alloc),
        }
    }

    /// Reserves the memory that `note` needs for the change. The contents stay the same, even after
    /// an `Err`. Clauses see the room for minutes and overdue pieces, but not that under names.
    pub fn reserve(&mut self, change: &Change) -> Result<(), AllocError>
        // Room alone is made: nothing is listed of a command that isn't committed yet.
        ensures same { (H : History) → IsListed self.old H → IsListed self.new H }
        ensures room { OnOk result (HasRoomFor (length change.now.takes) self.new) }
    {
        let takes = change.takes();
        self.minutes.reserve(1)?;
        self.overdue.reserve(takes.len())?;
        room_for_install(self.alloc, &mut self.boards, &change.stamped.command)?;
        room_for_pieces(self.alloc, &mut self.lots, takes)?;
        Ok(())
    }

    /// Adds a change accepted under this number. After an `Err` the contents are unknown: drop
    /// them.
    pub fn note(&mut self, number: u32, change: &Change) -> Result<(), AllocError>
        ensures listed { (H : History) → IsListed self.old H → number ≡ length H + 1
            → change.now ≡ change_of H change.now.stamped
            → OnOk result (IsListed self.new (accept H change.now.stamped)) }
    {
        let takes = change.takes();
        let Ok(pieces) = u32::try_from(takes.len()) else {
            return Err(AllocError);
        };
        let install = Install { number, pieces };
        self.minutes.push(change.minute().get() as u32)?;
        note_install(
            self.alloc,
            &mut self.boards,
            &change.stamped.command,
            install,
        )?;
        note_pieces(
            self.alloc,
            &mut self.lots,
            &mut self.overdue,
            install,
            takes,
        )?;
        Ok(())
    }

    /// Returns the placed pieces of the lot.
    pub fn of_lot(&self, lot: &Id) -> &[PieceKey]
        ensures listed { (H : History) → IsListed self.now H
            → map key_of result.now ≡ keys_where (λ p. same p.lot lot.now) H }
    {
        kept_under(&self.lots, lot)
    }

    /// Returns the installs on the board.
    pub fn of_board(&self, board: &Id) -> &[Install]
        ensures listed { (H : History) → IsListed self.now H
            → keys_of_installs result.now ≡ keys_where (λ p. same p.board board.now) H }
    {
        kept_under(&self.boards, board)
    }

    /// Returns the overdue pieces.
    pub fn overdue(&self) -> &[PieceKey]
        ensures listed { (H : History) → IsListed self.now H
            → map key_of result.now ≡ keys_where (λ p. p.overdue) H }
    {
        self.overdue.as_slice()
    }

    /// Returns the effective minute of the entry with this number, if there is one.
    pub fn minute(&self, number: u32) -> Option<Minute>
        ensures listed { (H : History) → IsListed self.now H → result ≡ minute_of H number }
    {
        let before = number.checked_sub(1)?;
        let minute = self.minutes.get(before as usize)?;
        Minute::new(u64::from(*minute))
    }
}
