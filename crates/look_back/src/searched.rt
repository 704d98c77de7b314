//! The facts for judging, found by searching the history.

ghost use Rattle.std.specs.Prelude.{◌≡◌, ◌≤◌, length, reverse, IfOk};
ghost use Rattle.desk_types.specs.declared.limits.TheConstants.{MOST_ENTRIES};
ghost use Rattle.desk_types.specs.declared.rules.Rules.TheVariants.{Two};
ghost use Rattle.desk_types.specs.Judged.{IsJudged};
ghost use Rattle.look_back.specs.Kept.{AreTakes};

use crate::alternates::alternates_of;
use crate::mounts::is_mounted;
use crate::parts::parts_of;
use crate::pieces::left_of;
use crate::setup::{desk_minute, row_on, selected_on, sheet_of, slot_on};
use crate::tapes::{reel_at, reel_count};
use crate::views::reel_row;
use crate::work::{in_work_on, is_in_work, is_placed_on, product_of};
use desk_types::{Designator, Entry, Id, Minute, ReelRow, SheetRow, SheetRows, Takes};
use judging::Facts;
use setup_sheets::{Alternates, Parts};
use std::alloc::{AllocError, Global};
use std::marker::Model;

/// The entries with their takes, and the parts and alternates that they name. Contracts see it as
/// the history.
#[derive(Drop)]
pub struct Searched<'a> {
    entries: &'a [Entry],
    takes: &'a [Takes],
    parts: Parts,
    alternates: Alternates,
}

impl<'a> Model for Searched<'a> {
    ghost use Rattle.std.specs.Prelude.{reverse};
    ghost use Rattle.desk_types.specs.History.{History};
    ghost use Rattle.look_back.specs.Searching.{IsSearched};

    ghost Value = { History };

    ghost view = { λ a. reverse a.entries.now };

    ghost invariant = { λ a.
        IsSearched (reverse a.entries.now) (reverse a.takes.now) a.parts a.alternates };
}

/// Returns the facts of these entries and takes.
pub fn search<'a>(
    alloc: Global,
    entries: &'a [Entry],
    takes: &'a [Takes],
) -> Result<Searched<'a>, AllocError>
    requires most { length entries.now ≤ MOST_ENTRIES }
    requires judged { IsJudged Two (reverse entries.now) }
    requires takes { AreTakes (reverse entries.now) (reverse takes.now) }
    ensures { IfOk result (λ found. found ≡ reverse entries.now) }
{
    Ok(Searched {
        entries,
        takes,
        parts: parts_of(alloc, entries)?,
        alternates: alternates_of(alloc, entries)?,
    })
}

impl<'a> Facts for Searched<'a> {
    ghost use Rattle.std.specs.Prelude.{◌≡◌};
    ghost use Rattle.desk_types.specs.declared.rules.Rules.TheVariants.{Two};
    ghost use Rattle.desk_types.specs.Judged.{IsJudged};
    ghost use Rattle.desk_types.specs.Tape.{tape_of};
    ghost use Rattle.look_back.specs.Laws.{searched_live};

    ghost Stands = { λ found H. (H ≡ found) × IsJudged Two H };

    ghost reels_on = { λ found. tape_of found };

    fn minute(&self) -> Option<Minute> {
        desk_minute(self.entries)
    }

    fn parts(&self) -> &Parts {
        &self.parts
    }

    fn alternates(&self) -> &Alternates {
        &self.alternates
    }

    fn selected_on(&self, machine: &Id) -> Option<Id> {
        selected_on(self.entries, machine)
    }

    fn sheet_of(&self, product: &Id, machine: &Id) -> Option<&SheetRows> {
        sheet_of(self.entries, product, machine)
    }

    fn row_on(&self, machine: &Id, slot: &Id) -> Option<&SheetRow> {
        row_on(self.entries, machine, slot)
    }

    fn slot_on(&self, machine: &Id, designator: &Designator) -> Option<Id> {
        slot_on(self.entries, machine, designator)
    }

    fn reel_row(&self, reel: &Id) -> Option<ReelRow> {
        reel_row(self.entries, self.takes, reel)
    }

    fn left_of(&self, reel: &Id) -> u64 {
        left_of(self.entries, self.takes, reel)
    }

    fn is_mounted(&self, reel: &Id) -> bool {
        is_mounted(self.entries, self.takes, reel)
    }

    fn reel_count(&self, machine: &Id, slot: &Id) -> usize {
        reel_count(self.entries, machine, slot)
    }

    fn reel_at(&self, machine: &Id, slot: &Id, index: usize) -> Option<Id> {
        reel_at(self.entries, machine, slot, index)
    }

    fn in_work_on(&self, machine: &Id) -> Option<Id> {
        in_work_on(self.entries, machine)
    }

    fn is_in_work(&self, board: &Id) -> bool {
        is_in_work(self.entries, board)
    }

    fn product_of(&self, board: &Id) -> Option<Id> {
        product_of(self.entries, board)
    }

    fn is_placed_on(&self, board: &Id, designator: &Designator) -> bool {
        is_placed_on(self.entries, board, designator)
    }

    ghost is_judged = { λ found H stands. stands.1 };

    ghost tells_live = { λ found H machine slot stands. searched_live found H machine slot stands.0 };
}
