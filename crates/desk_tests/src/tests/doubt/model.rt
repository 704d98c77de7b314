//! What two lists say of a piece, found by searching them. It is written from the rule alone.

use desk_types::{Command, Id, Placement, Stamped};
use line_book::{Matter, Note};
use line_doubt::{Doubt, Reason};
use std::alloc::Global;

/// The accepted commands, the entries and the placed pieces, oldest first.
#[derive(Drop)]
pub struct Lists {
    pub commands: Vec<Stamped>,
    pub notes: Vec<Note>,
    pub placed: Vec<Placement>,
    pub count_of_commands: u32,
    pub count_of_notes: u32,
}

fn is_handled(command: &Command, piece: &Placement) -> bool {
    is_restarted(command, piece)
        || match command {
            Command::MaterialsSpliced { machine, slot, .. } => is_of(machine, slot, piece),
            _ => false,
        }
}

fn is_restarted(command: &Command, piece: &Placement) -> bool {
    match command {
        Command::MaterialsLoaded { machine, slot, .. } => is_of(machine, slot, piece),
        Command::MaterialsUnloaded { machine, slot } => is_of(machine, slot, piece),
        _ => false,
    }
}

fn is_of(machine: &Id, slot: &Id, piece: &Placement) -> bool {
    *machine == piece.machine && *slot == piece.slot
}

fn is_one_slot(piece: &Placement, other: &Placement) -> bool {
    piece.machine == other.machine && piece.slot == other.slot
}

fn comes_before(piece: &Placement, other: &Placement) -> bool {
    piece.number < other.number || (piece.number == other.number && piece.place < other.place)
}

/// Whether the entry says that the piece is from the neighbor.
fn is_boundary(note: &Note, piece: &Placement) -> bool {
    match &note.matter {
        Matter::Boundary {
            machine,
            slot,
            board,
            desk_reel,
            ..
        } => {
            is_of(machine, slot, piece)
                && *board == piece.board
                && *desk_reel == piece.reel
                && u64::from(note.after).saturating_add(1) == piece.number
        }
        _ => false,
    }
}

impl Lists {
    pub fn new(alloc: Global) -> Lists {
        Lists {
            commands: Vec::new(alloc),
            notes: Vec::new(alloc),
            placed: Vec::new(alloc),
            count_of_commands: 0,
            count_of_notes: 0,
        }
    }

    /// Whether the reason holds for the piece, and none before it.
    pub fn is_first_reason(&self, doubt: &Doubt, within: u32) -> bool {
        let piece = &doubt.piece;
        match doubt.reason {
            Reason::Entry { number } => self.notes.as_slice().iter().any(|note| {
                u64::from(note.number) == number && self.is_unsettled_by(note, piece)
            }),
            Reason::Boundary { number } => {
                !self.is_unsettled(piece)
                    && self.notes.as_slice().iter().any(|note| {
                        u64::from(note.number) == number && is_boundary(note, piece)
                    })
            }
            Reason::Late { number } => {
                !self.is_unsettled(piece)
                    && !self.is_on_boundary(piece)
                    && self.is_swapped(number, piece)
            }
            Reason::Splice => {
                !self.is_unsettled(piece)
                    && !self.is_on_boundary(piece)
                    && !self.is_late(piece)
                    && self.is_near_splice(piece, within)
            }
        }
    }

    pub fn is_in_doubt(&self, piece: &Placement, within: u32) -> bool {
        self.is_unsettled(piece)
            || self.is_on_boundary(piece)
            || self.is_late(piece)
            || self.is_near_splice(piece, within)
    }

    fn is_unsettled(&self, piece: &Placement) -> bool {
        self.notes
            .as_slice()
            .iter()
            .any(|note| self.is_unsettled_by(note, piece))
    }

    /// Whether the slot was neither loaded nor unloaded between a refusal or a difference there and
    /// the piece.
    fn is_unsettled_by(&self, note: &Note, piece: &Placement) -> bool {
        let is_of_slot = match &note.matter {
            Matter::Handling { machine, slot, .. } => is_of(machine, slot, piece),
            Matter::Differs { machine, slot, .. } => is_of(machine, slot, piece),
            _ => false,
        };
        let after = u64::from(note.after);
        is_of_slot && after < piece.number && !self.is_restarted_between(after, piece)
    }

    fn is_restarted_between(&self, after: u64, piece: &Placement) -> bool {
        let mut number = 0u64;
        for it in self.commands.as_slice() {
            number = number.saturating_add(1);
            if after < number && number < piece.number && is_restarted(&it.command, piece) {
                return true;
            }
        }
        false
    }

    fn is_on_boundary(&self, piece: &Placement) -> bool {
        self.notes
            .as_slice()
            .iter()
            .any(|note| is_boundary(note, piece))
    }

    fn minute_of(&self, number: u64) -> u64 {
        let mut at = 0u64;
        for it in self.commands.as_slice() {
            at = at.saturating_add(1);
            if at == number {
                return it.minute.get();
            }
        }
        0
    }

    /// Whether a handling of the slot has its place on one side of the install, and its minute on the
    /// other.
    fn is_late(&self, piece: &Placement) -> bool {
        let mut number = 0u64;
        for _ in self.commands.as_slice() {
            number = number.saturating_add(1);
            if self.is_swapped(number, piece) {
                return true;
            }
        }
        false
    }

    /// Whether the command with the number is such a handling.
    fn is_swapped(&self, number: u64, piece: &Placement) -> bool {
        let own = self.minute_of(piece.number);
        let mut at = 0u64;
        for it in self.commands.as_slice() {
            at = at.saturating_add(1);
            let minute = it.minute.get();
            let is_before = at < piece.number && minute > own;
            let is_behind = at > piece.number && minute < own;
            if at == number && is_handled(&it.command, piece) && (is_before || is_behind) {
                return true;
            }
        }
        false
    }

    fn is_near_splice(&self, piece: &Placement, within: u32) -> bool {
        self.placed.as_slice().iter().any(|other| {
            self.is_spliced(piece, other, within) || self.is_spliced(other, piece, within)
        })
    }

    /// Whether the pieces are from two reels of one tape, the first before the other, with fewer than
    /// so many pieces between.
    fn is_spliced(&self, first: &Placement, other: &Placement, within: u32) -> bool {
        comes_before(first, other)
            && is_one_slot(first, other)
            && first.reel != other.reel
            && !self.is_restarted_between(first.number, other)
            && self.pieces_between(first, other) < within
    }

    fn pieces_between(&self, first: &Placement, other: &Placement) -> u32 {
        let mut count = 0u32;
        for piece in self.placed.as_slice() {
            if is_one_slot(first, piece)
                && comes_before(first, piece)
                && comes_before(piece, other)
            {
                count = count.saturating_add(1);
            }
        }
        count
    }
}
