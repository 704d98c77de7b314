//! What the two lists say, found by searching them for each answer. It is written from the rule
//! alone and shares no code with the guard.

use desk_types::{Command, Desk, Id, Left, Mount, Refusal, SheetRow, Stamped};
use line_book::{Cause, Matter, Note, Stock};
use std::alloc::{AllocError, Global};

/// The accepted commands and the entries, oldest first.
#[derive(Drop)]
pub struct Lists {
    pub commands: Vec<Stamped>,
    pub notes: Vec<Note>,
}

/// A load, a splice or an unload.
#[derive(Drop)]
struct Touch {
    machine: Id,
    slot: Id,
    reel: Option<Id>,
    is_splice: bool,
}

fn touch_by(command: &Command) -> Option<Touch> {
    match command {
        Command::MaterialsLoaded {
            machine,
            slot,
            reel,
        } => Some(Touch {
            machine: *machine,
            slot: *slot,
            reel: Some(*reel),
            is_splice: false,
        }),
        Command::MaterialsSpliced {
            machine,
            slot,
            reel,
        } => Some(Touch {
            machine: *machine,
            slot: *slot,
            reel: Some(*reel),
            is_splice: true,
        }),
        Command::MaterialsUnloaded { machine, slot } => Some(Touch {
            machine: *machine,
            slot: *slot,
            reel: None,
            is_splice: false,
        }),
        _ => None,
    }
}

fn is_touched(command: &Command, machine: &Id, slot: &Id, by_splice: bool) -> bool {
    match touch_by(command) {
        Some(it) => it.machine == *machine && it.slot == *slot && (by_splice || !it.is_splice),
        None => false,
    }
}

fn is_stray_handled(command: &Command, machine: &Id, reel: &Option<Id>) -> bool {
    match touch_by(command) {
        Some(it) => it.reel == *reel && (it.reel.is_some() || it.machine == *machine),
        None => false,
    }
}

fn is_start(command: &Command, on: &Id) -> bool {
    match command {
        Command::WorkStarted { machine, .. } => *machine == *on,
        _ => false,
    }
}

fn ends(matter: &Matter, command: &Command) -> bool {
    match matter {
        Matter::Handling { machine, slot, .. } => is_touched(command, machine, slot, true),
        Matter::Differs { machine, slot, .. } => is_touched(command, machine, slot, false),
        Matter::Stray { machine, reel, .. } => is_stray_handled(command, machine, reel),
        Matter::Work { machine, .. } => is_start(command, machine),
        _ => false,
    }
}

fn stops(matter: &Matter) -> bool {
    match matter {
        Matter::Handling { .. } | Matter::Stray { .. } => true,
        Matter::Work { .. } | Matter::Differs { .. } => true,
        _ => false,
    }
}

fn waits(matter: &Matter) -> bool {
    match matter {
        Matter::Work { .. } | Matter::Unread { .. } => true,
        Matter::Differs { .. } | Matter::Uncompared { .. } => true,
        _ => false,
    }
}

/// The kind and the word of a refusal or a faulty message.
fn refusal_word(matter: &Matter) -> Option<(u8, Id)> {
    match matter {
        Matter::Handling { word, .. } => Some((1, *word)),
        Matter::Stray { word, .. } => Some((2, *word)),
        Matter::Work { word, .. } => Some((3, *word)),
        Matter::Unread { word } => Some((4, *word)),
        _ => None,
    }
}

fn is_same_refusal(one: &Note, other: &Note) -> bool {
    match (refusal_word(&one.matter), refusal_word(&other.matter)) {
        (Some((kind, word)), Some((as_kind, as_word))) => {
            kind == as_kind && word == as_word && one.text == other.text
        }
        _ => false,
    }
}

fn has_slot(rows: &[SheetRow], slot: &Id) -> bool {
    rows.iter().any(|row| row.slot == *slot)
}

fn front_refusal(row: &SheetRow, front: &Option<Mount>, is_allowed: bool) -> Option<Refusal> {
    match front {
        None => Some(Refusal::SlotEmpty(row.slot)),
        Some(_) if !is_allowed => Some(Refusal::WrongPart(row.slot)),
        Some(it) => match it.left {
            Left::Unbaked => Some(Refusal::NotBaked(row.slot)),
            Left::Minutes(0) => Some(Refusal::Expired(row.slot)),
            _ => None,
        },
    }
}

impl Lists {
    pub fn new(alloc: Global) -> Lists {
        Lists {
            commands: Vec::new(alloc),
            notes: Vec::new(alloc),
        }
    }

    fn is_decided(&self, note: &Note) -> bool {
        let decision = Matter::Decision { about: note.number };
        self.notes.as_slice().iter().any(|it| it.matter == decision)
    }

    fn is_open(&self, note: &Note) -> bool {
        let commands = self.commands.as_slice();
        match commands.split_at_checked(note.after as usize) {
            Some((_before, later)) => {
                stops(&note.matter)
                    && !self.is_decided(note)
                    && !later.iter().any(|it| ends(&note.matter, &it.command))
            }
            None => false,
        }
    }

    fn is_waiting(&self, note: &Note) -> bool {
        waits(&note.matter) && !self.is_decided(note)
    }

    /// The entries that wait for a decision, oldest first.
    pub fn undecided(&self, alloc: Global) -> Result<Vec<Note>, AllocError> {
        let mut found = Vec::new(alloc);
        for note in self.notes.as_slice() {
            if self.is_waiting(note) {
                found.push(note.clone()?)?;
            }
        }
        Ok(found)
    }

    /// The open entries, oldest first.
    pub fn open_notes(&self, alloc: Global) -> Result<Vec<Note>, AllocError> {
        let mut found = Vec::new(alloc);
        for note in self.notes.as_slice() {
            if self.is_open(note) {
                found.push(note.clone()?)?;
            }
        }
        Ok(found)
    }

    /// Whether an entry of the same refusal still stands.
    pub fn is_known(&self, refusal: &Note) -> bool {
        self.notes.as_slice().iter().any(|it| {
            is_same_refusal(it, refusal)
                && (self.is_open(it) || !stops(&it.matter) && self.is_waiting(it))
        })
    }

    /// The board in work on the machine.
    pub fn board_on(&self, machine: &Id) -> Option<Id> {
        let mut found = None;
        for it in self.commands.as_slice() {
            match &it.command {
                Command::WorkStarted { machine: at, board } if *at == *machine => {
                    found = Some(*board)
                }
                Command::WorkCompleted { machine: at, .. } if *at == *machine => found = None,
                _ => {}
            }
        }
        found
    }

    fn is_allowed(&self, part: &Id, other: &Id) -> bool {
        *part == *other
            || self.commands.as_slice().iter().any(|it| match &it.command {
                Command::AlternateAllowed { part: p, alternate } => *p == *part
                    && *alternate == *other,
                _ => false,
            })
    }

    /// The number of the last hold, unless it was released since.
    fn hold_on(&self, stock: Stock) -> Option<u32> {
        let mut held = None;
        for it in self.notes.as_slice() {
            match &it.matter {
                Matter::Hold { stock: of } if *of == stock => held = Some(it.number),
                Matter::Release { stock: of } if *of == stock => held = None,
                _ => {}
            }
        }
        held
    }

    /// Why the machine may not work. The desk is that of the commands.
    pub fn causes<D: Desk>(
        &self,
        alloc: Global,
        desk: &D,
        machine: &Id,
    ) -> Result<Vec<Cause>, AllocError> {
        let mut found = Vec::new(alloc);
        if self.board_on(machine).is_none() {
            found.push(Cause::NoWork)?;
        }
        let sheet = match desk.selected(machine) {
            Some(product) => desk.sheet_of(&product, machine)?,
            None => None,
        };
        let rows = match &sheet {
            Some(rows) => rows.as_slice(),
            None => &[],
        };
        self.add_open(&mut found, machine, rows)?;
        if sheet.is_none() {
            found.push(Cause::NoSheet)?;
        }
        if let Some(mounts) = desk.slots_of(machine)? {
            for row in rows {
                let front = mounts
                    .as_slice()
                    .iter()
                    .find(|it| it.slot == row.slot)
                    .copied();
                self.add_slot(&mut found, row, &front)?;
            }
        }
        Ok(found)
    }

    fn add_open(
        &self,
        found: &mut Vec<Cause>,
        machine: &Id,
        rows: &[SheetRow],
    ) -> Result<(), AllocError> {
        for note in self.notes.as_slice() {
            let is_about = match &note.matter {
                Matter::Handling {
                    machine: at,
                    slot,
                    ..
                } => *at == *machine && has_slot(rows, slot),
                Matter::Differs {
                    machine: at,
                    slot,
                    ..
                } => *at == *machine && has_slot(rows, slot),
                Matter::Stray { machine: at, .. } => *at == *machine,
                Matter::Work { machine: at, .. } => *at == *machine,
                _ => false,
            };
            if is_about && self.is_open(note) {
                found.push(Cause::Open(note.clone()?))?;
            }
        }
        Ok(())
    }

    fn add_slot(
        &self,
        found: &mut Vec<Cause>,
        row: &SheetRow,
        front: &Option<Mount>,
    ) -> Result<(), AllocError> {
        let is_allowed = match front {
            Some(it) => self.is_allowed(&row.part, &it.part),
            None => false,
        };
        if let Some(refusal) = front_refusal(row, front, is_allowed) {
            found.push(Cause::AtSlot {
                slot: row.slot,
                reel: front.map(|it| it.reel),
                refusal,
            })?;
        }
        let Some(it) = front else {
            return Ok(());
        };
        for stock in [Stock::Reel(it.reel), Stock::Lot(it.lot)] {
            if let Some(number) = self.hold_on(stock) {
                found.push(Cause::Held {
                    slot: row.slot,
                    reel: it.reel,
                    number,
                })?;
            }
        }
        Ok(())
    }
}
