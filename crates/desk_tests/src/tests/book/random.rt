//! Random histories and books: after each, the guard answers as the model that searches both lists.

ghost use Rattle.desk_types.specs.Desk.{HasRoom};

use super::is_refused;
use super::model::Lists;
use crate::tests::id;
use crate::tests::sending::{command, messages, replies_of, stamped};
use desk_types::{Command, Desk, Id, Reply, Rules, Stamped};
use feeder_state::StateDesk;
use line_book::{Cause, Guard, Matter, Note, Stock};
use rand::rngs::SmallRng;
use rand::seq::IndexedRandom;
use rand::{RngExt, SeedableRng};
use std::alloc::Global;
use std::test::Fail;

/// The setup of each history: two machines, two products, six reels of two lots.
const SETUP: &str = "PartDefined\tP
PartDefined\tQ
AlternateAllowed\tP\tQ
SheetDefined\tX\tM1\t2\t1\tP\t1\tC1\t2\tQ\t1\tC2
SheetDefined\tY\tM1\t1\t2\tP\t1\tC1
SheetDefined\tX\tM2\t1\t1\tP\t1\tC3
ProductSelected\tM1\tX
ProductSelected\tM2\tX
ReelReceived\tR1\tP\tL1\t1\t9\t0
ReelReceived\tR2\tP\tL2\t5a\t9\t0
ReelReceived\tR3\tQ\tL1\t1\t2\t0
ReelReceived\tR4\tQ\tL2\t6\t9\t60
ReelReceived\tR5\tQ\tL2\t1\t9\t0
ReelReceived\tR6\tP\tL1\t1\t1\t0";

const MACHINES: [&str; 3] = ["M1", "M1", "M2"];

const SLOTS: [&str; 5] = ["1", "1", "2", "2", "3"];

const REELS: [&str; 7] = ["R1", "R2", "R3", "R4", "R5", "R6", "R7"];

const BOARDS: [&str; 3] = ["B1", "B2", "B3"];

const PLACES: [&str; 3] = ["C1", "C2", "C3"];

const PRODUCTS: [&str; 3] = ["X", "X", "Y"];

const LOTS: [&str; 2] = ["L1", "L2"];

/// What a run of all histories met, so that none of it is a test of nothing.
#[derive(Default, Drop)]
struct Met {
    go: u32,
    open: u32,
    held: u32,
    at_slot: u32,
    undecided: u32,
    known: u32,
}

fn one_of<'a>(rng: &mut SmallRng, names: &[&'a str]) -> &'a str {
    match names.choose(rng) {
        Some(name) => name,
        None => "",
    }
}

/// A message of one of the kinds that change a machine or a reel.
fn some_command(alloc: Global, rng: &mut SmallRng) -> Result<Command, Fail> {
    let m = one_of(rng, &MACHINES);
    let slot = one_of(rng, &SLOTS);
    let reel = one_of(rng, &REELS);
    let board = one_of(rng, &BOARDS);
    let place = one_of(rng, &PLACES);
    let product = one_of(rng, &PRODUCTS);
    let text = match rng.random_range(0u32..20) {
        0..=5 => format!(in alloc; "MaterialsLoaded\t{m}\t{slot}\t{reel}")?,
        6..=7 => format!(in alloc; "MaterialsSpliced\t{m}\t{slot}\t{reel}")?,
        8..=9 => format!(in alloc; "MaterialsUnloaded\t{m}\t{slot}")?,
        10..=12 => format!(in alloc; "WorkStarted\t{m}\t{board}")?,
        13 => format!(in alloc; "WorkCompleted\t{m}\t{board}")?,
        14..=15 => format!(in alloc; "MaterialsInstalled\t{m}\t{board}\t1\t{place}")?,
        16 => format!(in alloc; "MaterialsScrapped\t{m}\t{slot}\t1")?,
        17 => format!(in alloc; "ProductSelected\t{m}\t{product}")?,
        18 => format!(in alloc; "ReelBaked\t{reel}")?,
        _ => format!(in alloc; "SheetDefined\tX\tM1\t1\t1\tQ\t1\tC1")?,
    };
    command(alloc, text.as_str())
}

/// The setup and then so many messages, some of them hours after the one before.
fn some_messages(alloc: Global, rng: &mut SmallRng) -> Result<Vec<Stamped>, Fail> {
    let mut messages = messages(alloc, SETUP)?;
    let mut minute = 10u64;
    for _ in 0..rng.random_range(5u32..70) {
        let pause = if rng.random_range(0u32..12) == 0 {
            900
        } else {
            3
        };
        minute = minute.saturating_add(pause);
        messages.push(stamped(minute, some_command(alloc, rng)?)?)?;
    }
    Ok(messages)
}

fn some_id(rng: &mut SmallRng, names: &[&str]) -> Result<Id, Fail> {
    id(one_of(rng, names))
}

fn some_stock(rng: &mut SmallRng) -> Result<Stock, Fail> {
    if rng.random_range(0u32..2) == 0 {
        Ok(Stock::Reel(some_id(rng, &REELS)?))
    } else {
        Ok(Stock::Lot(some_id(rng, &LOTS)?))
    }
}

/// An entry that no refusal makes. `last` is the number of the newest entry.
fn some_matter(rng: &mut SmallRng, last: u32) -> Result<Matter, Fail> {
    let machine = some_id(rng, &MACHINES)?;
    let slot = some_id(rng, &SLOTS)?;
    let board = some_id(rng, &BOARDS)?;
    let reel = some_id(rng, &REELS)?;
    let desk_reel = some_id(rng, &REELS)?;
    Ok(match rng.random_range(0u32..12) {
        0..=3 if last > 0 => Matter::Decision {
            about: rng.random_range(1u32..=last),
        },
        4 => Matter::Differs {
            machine,
            slot,
            board,
            reel,
            desk_reel,
        },
        5 => Matter::Boundary {
            machine,
            slot,
            board,
            reel,
            desk_reel,
        },
        6 => Matter::Uncompared { machine, board },
        7 => Matter::Unread { word: id("Json")? },
        8 => Matter::Hold {
            stock: some_stock(rng)?,
        },
        _ => Matter::Release {
            stock: some_stock(rng)?,
        },
    })
}

/// The entry of a refused message, if it has one.
fn refusal_of(command: &Command) -> Result<Option<Matter>, Fail> {
    let word = id("Refused")?;
    let stray = id("3")?;
    Ok(match command {
        Command::MaterialsLoaded {
            machine,
            slot,
            reel,
        }
        | Command::MaterialsSpliced {
            machine,
            slot,
            reel,
        } => Some(handling(*machine, *slot, Some(*reel), word, *slot == stray)),
        Command::MaterialsUnloaded { machine, slot } => {
            Some(handling(*machine, *slot, None, word, *slot == stray))
        }
        Command::WorkStarted { machine, board }
        | Command::WorkCompleted { machine, board }
        | Command::MaterialsInstalled { machine, board, .. } => Some(Matter::Work {
            machine: *machine,
            slot: None,
            board: Some(*board),
            word,
        }),
        _ => None,
    })
}

fn handling(machine: Id, slot: Id, reel: Option<Id>, word: Id, is_stray: bool) -> Matter {
    if is_stray {
        Matter::Stray {
            machine,
            slot,
            reel,
            word,
        }
    } else {
        Matter::Handling {
            machine,
            slot,
            reel,
            word,
        }
    }
}

/// The guard and the model, both told the same.
#[derive(Drop)]
struct Both {
    guard: Guard,
    lists: Lists,
    commands: u32,
    notes: u32,
}

impl Both {
    fn new(alloc: Global) -> Both {
        Both {
            guard: Guard::new(alloc),
            lists: Lists::new(alloc),
            commands: 0,
            notes: 0,
        }
    }

    fn accept(&mut self, message: &Stamped) -> Result<(), Fail> {
        self.guard.accepted(message)?;
        self.lists.commands.push(message.clone()?)?;
        self.commands = self.commands.saturating_add(1);
        Ok(())
    }

    /// The next entry, with the command that was refused as its text.
    fn next(&self, alloc: Global, matter: Matter, command: &Command) -> Result<Note, Fail> {
        Ok(Note {
            number: self.notes.saturating_add(1),
            after: self.commands,
            carries: 0,
            matter,
            text: command.write_text(alloc)?,
        })
    }

    fn note(&mut self, note: Note) -> Result<(), Fail> {
        self.guard.noted(&note)?;
        self.notes = note.number;
        self.lists.notes.push(note)?;
        Ok(())
    }

    /// Notes the refusal, unless it is known. Says whether guard and model agree that it is.
    fn refuse(&mut self, note: Note, met: &mut Met) -> Result<bool, Fail> {
        let is_known = self.guard.is_known(&note);
        if is_known != self.lists.is_known(&note) {
            return Ok(false);
        }
        if is_known {
            met.known = met.known.saturating_add(1);
        } else {
            self.note(note)?;
        }
        Ok(true)
    }

    /// Takes in a message with its reply, and sometimes an entry before it.
    fn hear(
        &mut self,
        alloc: Global,
        rng: &mut SmallRng,
        (message, reply): (&Stamped, &Reply),
        met: &mut Met,
    ) -> Result<bool, Fail> {
        if rng.random_range(0u32..4) == 0 {
            let matter = some_matter(rng, self.notes)?;
            let note = self.next(alloc, matter, &Command::ClockSet)?;
            self.note(note)?;
        }
        if !is_refused(reply) {
            self.accept(message)?;
            return Ok(true);
        }
        match refusal_of(&message.command)? {
            Some(matter) => {
                let note = self.next(alloc, matter, &message.command)?;
                self.refuse(note, met)
            }
            None => Ok(true),
        }
    }

    /// Whether guard and model give the same answers about the machine.
    fn is_alike<D: Desk>(
        &self,
        alloc: Global,
        desk: &D,
        machine: &Id,
        met: &mut Met,
    ) -> Result<bool, Fail>
        requires { HasRoom D.Stands desk.now 0 }
    {
        let causes = self.guard.causes(alloc, desk, machine)?;
        met.count(causes.as_slice());
        let searched = self.lists.causes(alloc, desk, machine)?;
        let undecided = self.lists.undecided(alloc)?;
        let open = self.lists.open_notes(alloc)?;
        if !undecided.is_empty() {
            met.undecided = met.undecided.saturating_add(1);
        }
        Ok(
            causes.as_slice() == searched.as_slice()
                && self.guard.undecided() == undecided.as_slice()
                && self.guard.open_notes() == open.as_slice()
                && self.guard.board_on(machine) == self.lists.board_on(machine),
        )
    }
}

impl Met {
    fn count(&mut self, causes: &[Cause]) {
        if causes.is_empty() {
            self.go = self.go.saturating_add(1);
        }
        for cause in causes {
            match cause {
                Cause::Open(_) => self.open = self.open.saturating_add(1),
                Cause::Held { .. } => self.held = self.held.saturating_add(1),
                Cause::AtSlot { .. } => self.at_slot = self.at_slot.saturating_add(1),
                _ => {}
            }
        }
    }
}

/// Whether guard and model agree at the end of a history.
fn agrees<D: Desk + Drop>(alloc: Global, rng: &mut SmallRng, met: &mut Met) -> Result<bool, Fail> {
    let messages = some_messages(alloc, rng)?;
    let mut desk = D::fresh(alloc, Rules::Two);
    let replies = replies_of(alloc, &mut desk, messages.as_slice())?;
    let mut both = Both::new(alloc);
    for heard in messages.as_slice().iter().zip(replies.as_slice()) {
        if !both.hear(alloc, rng, heard, met)? {
            return Ok(false);
        }
    }
    let one = both.is_alike(alloc, &desk, &id("M1")?, met)?;
    let other = both.is_alike(alloc, &desk, &id("M2")?, met)?;
    Ok(one && other)
}

#[test]
fn the_guard_answers_as_a_search_of_both_lists(rt: HostRuntime) -> Result<(), Fail> {
    let mut rng = SmallRng::seed_from_u64(20261129);
    let mut met = Met::default();
    for _ in 0..2000 {
        assert!(rt; agrees::<StateDesk>(rt.alloc(), &mut rng, &mut met)?);
    }
    assert!(rt; met.go > 0 && met.open > 0 && met.held > 0);
    assert!(rt; met.at_slot > 0 && met.undecided > 0 && met.known > 0);
    Ok(())
}
