//! Pieces in doubt: random lists are answered as the model answers that searches them.

mod model;

use super::id;
use super::sending::{command, stamped};
use desk_types::{Designator, Id, Listing, Minute, Placement, Stamped};
use line_book::{Matter, Note};
use line_doubt::{Doubt, Reason, doubtful, notes_rise, pieces_rise};
use model::Lists;
use rand::rngs::SmallRng;
use rand::seq::IndexedRandom;
use rand::{RngExt, SeedableRng};
use std::alloc::Global;
use std::test::Fail;

const MACHINES: [&str; 3] = ["M1", "M1", "M2"];

const SLOTS: [&str; 3] = ["1", "1", "2"];

const REELS: [&str; 3] = ["R1", "R2", "R3"];

const BOARDS: [&str; 2] = ["B1", "B2"];

/// How many pieces of all runs were in doubt for each reason, so that none of it is a test of nothing.
#[derive(Default, Drop)]
struct Met {
    entry: u32,
    boundary: u32,
    late: u32,
    splice: u32,
    sure: u32,
}

fn one_of<'a>(rng: &mut SmallRng, names: &[&'a str]) -> &'a str {
    match names.choose(rng) {
        Some(name) => name,
        None => "",
    }
}

fn some_id(rng: &mut SmallRng, names: &[&str]) -> Result<Id, Fail> {
    id(one_of(rng, names))
}

fn some_matter(rng: &mut SmallRng) -> Result<Matter, Fail> {
    let machine = some_id(rng, &MACHINES)?;
    let slot = some_id(rng, &SLOTS)?;
    let board = some_id(rng, &BOARDS)?;
    let reel = some_id(rng, &REELS)?;
    let desk_reel = some_id(rng, &REELS)?;
    let word = id("SlotEmpty")?;
    Ok(match rng.random_range(0u32..6) {
        0 => Matter::Handling {
            machine,
            slot,
            reel: Some(reel),
            word,
        },
        1 => Matter::Differs {
            machine,
            slot,
            board,
            reel,
            desk_reel,
        },
        2..=3 => Matter::Boundary {
            machine,
            slot,
            board,
            reel,
            desk_reel,
        },
        4 => Matter::Stray {
            machine,
            slot,
            reel: None,
            word,
        },
        _ => Matter::Decision { about: 1 },
    })
}

impl Lists {
    fn note(&mut self, alloc: Global, rng: &mut SmallRng) -> Result<(), Fail> {
        let number = self.count_of_notes.saturating_add(1);
        self.count_of_notes = number;
        self.notes.push(Note {
            number,
            after: self.count_of_commands,
            carries: 0,
            matter: some_matter(rng)?,
            text: Listing::new(Vec::new(alloc)),
        })?;
        Ok(())
    }

    /// Accepts a command on a slot, or an install with up to three pieces.
    fn accept(&mut self, alloc: Global, rng: &mut SmallRng) -> Result<(), Fail> {
        let m = one_of(rng, &MACHINES);
        let slot = one_of(rng, &SLOTS);
        let reel = one_of(rng, &REELS);
        let board = one_of(rng, &BOARDS);
        let kind = rng.random_range(0u32..10);
        let text = match kind {
            0 => format!(in alloc; "MaterialsLoaded\t{m}\t{slot}\t{reel}")?,
            1..=2 => format!(in alloc; "MaterialsSpliced\t{m}\t{slot}\t{reel}")?,
            3 => format!(in alloc; "MaterialsUnloaded\t{m}\t{slot}")?,
            4 => format!(in alloc; "WorkStarted\t{m}\t{board}")?,
            _ => format!(in alloc; "MaterialsInstalled\t{m}\t{board}\t1\tC1")?,
        };
        let minute = rng.random_range(0u64..30);
        self.commands
            .push(stamped(minute, command(alloc, text.as_str())?)?)?;
        self.count_of_commands = self.count_of_commands.saturating_add(1);
        if kind > 4 {
            for place in 1..=rng.random_range(1u64..=3) {
                self.place(rng, place, id(m)?, id(board)?)?;
            }
        }
        Ok(())
    }

    fn place(
        &mut self,
        rng: &mut SmallRng,
        place: u64,
        machine: Id,
        board: Id,
    ) -> Result<(), Fail> {
        self.placed.push(Placement {
            number: u64::from(self.count_of_commands),
            place,
            board,
            designator: Designator::read("C1".as_bytes()).ok_or("no designator")?,
            part: id("P")?,
            lot: id("L")?,
            reel: some_id(rng, &REELS)?,
            machine,
            slot: some_id(rng, &SLOTS)?,
            effective: Minute::new(30).ok_or("no minute")?,
            overdue: false,
        })?;
        Ok(())
    }
}

fn some_lists(alloc: Global, rng: &mut SmallRng) -> Result<Lists, Fail> {
    let mut lists = Lists::new(alloc);
    for _ in 0..rng.random_range(0u32..60) {
        if rng.random_range(0u32..3) == 0 {
            lists.note(alloc, rng)?;
        }
        lists.accept(alloc, rng)?;
    }
    Ok(lists)
}

/// What the crate finds, or None if a list is out of order.
fn found_in(
    alloc: Global,
    commands: &[Stamped],
    book: &[Note],
    placed: &[Placement],
    within: u32,
) -> Result<Option<Vec<Doubt>>, Fail> {
    if !notes_rise(commands.len(), book) {
        return Ok(None);
    }
    if !pieces_rise(commands.len(), placed) {
        return Ok(None);
    }
    Ok(Some(doubtful(alloc, commands, book, placed, within)?))
}

impl Met {
    fn count(&mut self, doubt: &Doubt) {
        match doubt.reason {
            Reason::Entry { .. } => self.entry = self.entry.saturating_add(1),
            Reason::Boundary { .. } => self.boundary = self.boundary.saturating_add(1),
            Reason::Late { .. } => self.late = self.late.saturating_add(1),
            Reason::Splice => self.splice = self.splice.saturating_add(1),
        }
    }

    /// Returns the pieces in doubt by the model, and counts the others.
    fn wanted(
        &mut self,
        alloc: Global,
        lists: &Lists,
        within: u32,
    ) -> Result<Vec<Placement>, Fail> {
        let mut wanted = Vec::new(alloc);
        for piece in lists.placed.as_slice() {
            if lists.is_in_doubt(piece, within) {
                wanted.push(*piece)?;
            } else {
                self.sure = self.sure.saturating_add(1);
            }
        }
        Ok(wanted)
    }

    /// Whether the crate finds the pieces that the model finds, each with its first reason.
    fn agree(
        &mut self,
        alloc: Global,
        lists: &Lists,
        found: &[Doubt],
        within: u32,
    ) -> Result<bool, Fail> {
        let mut pieces = Vec::new(alloc);
        for doubt in found {
            if !lists.is_first_reason(doubt, within) {
                return Ok(false);
            }
            self.count(doubt);
            pieces.push(doubt.piece)?;
        }
        let wanted = self.wanted(alloc, lists, within)?;
        Ok(pieces.as_slice() == wanted.as_slice())
    }
}

#[test]
fn doubts_are_those_of_a_search_of_both_lists(rt: HostRuntime) -> Result<(), Fail> {
    let mut rng = SmallRng::seed_from_u64(20261130);
    let mut met = Met::default();
    for _ in 0..300 {
        let lists = some_lists(rt.alloc(), &mut rng)?;
        let within = rng.random_range(0u32..4);
        let commands = lists.commands.as_slice();
        let book = lists.notes.as_slice();
        let placed = lists.placed.as_slice();
        match found_in(rt.alloc(), commands, book, placed, within)? {
            Some(found) => {
                assert!(rt; met.agree(rt.alloc(), &lists, found.as_slice(), within)?);
            }
            None => return Err("a list is out of order")?,
        }
    }
    assert!(rt; met.entry > 100 && met.boundary > 10 && met.late > 100);
    assert!(rt; met.splice > 100 && met.sure > 100);
    Ok(())
}

#[test]
fn lists_out_of_order_are_known(rt: HostRuntime) -> Result<(), Fail> {
    let mut rng = SmallRng::seed_from_u64(7);
    let mut lists = Lists::new(rt.alloc());
    lists.note(rt.alloc(), &mut rng)?;
    lists.accept(rt.alloc(), &mut rng)?;
    lists.place(&mut rng, 1, id("M1")?, id("B1")?)?;
    assert!(rt; notes_rise(1, lists.notes.as_slice()) && pieces_rise(1, lists.placed.as_slice()));
    assert!(rt; !pieces_rise(0, lists.placed.as_slice()));
    lists.count_of_commands = 0;
    lists.note(rt.alloc(), &mut rng)?;
    lists.count_of_commands = 2;
    lists.note(rt.alloc(), &mut rng)?;
    assert!(rt; notes_rise(2, lists.notes.as_slice()) && !notes_rise(1, lists.notes.as_slice()));
    lists.count_of_commands = 0;
    lists.note(rt.alloc(), &mut rng)?;
    assert!(rt; !notes_rise(2, lists.notes.as_slice()));
    Ok(())
}
