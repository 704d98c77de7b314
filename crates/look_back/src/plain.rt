//! The desk that searches its history.

ghost use Rattle.std.specs.Prelude.{◌≡◌, ◌+◌, ◌≤◌, [], length, reverse, IfOk, OnOk, OnErr};
ghost use Rattle.std.specs.List.{find};
ghost use Rattle.std.specs.Option.{option_copied};
ghost use Rattle.desk_types.specs.declared.limits.TheConstants.{MOST_ENTRIES};
ghost use Rattle.desk_types.specs.declared.rules.Rules.TheVariants.{Two};
ghost use Rattle.desk_types.specs.History.{basis, basis_after};
ghost use Rattle.desk_types.specs.Id.{same};
ghost use Rattle.desk_types.specs.Judged.{IsJudged};
ghost use Rattle.desk_types.specs.Desk.{IsChange};

use crate::free::free_reels;
use crate::searched::{Searched, search};
use crate::setup::{desk_minute, selected_on, sheet_of};
use crate::slots::slots_of;
use crate::views::{reel_row, reel_view};
use desk_types::{
    Change, Desk, Entry, Fronts, Id, JudgeFault, Minute, Mounts, ReelRow, ReelView, ReelViews,
    Rules, SheetRows, Stamped, Takes,
};
use judging::fronts::fronts;
use judging::judge;
use std::alloc::{AllocError, Global};
use std::marker::Model;

/// A desk that stores the accepted entries, each with its takes, and answers by searching them.
/// Contracts see it as its rules and that history.
#[derive(Drop)]
pub struct PlainDesk {
    alloc: Global,
    rules: Rules,
    entries: Vec<Entry>,
    takes: Vec<Takes>,
}

impl Model for PlainDesk {
    ghost use Rattle.std.specs.Prelude.{◌≤◌, length, reverse};
    ghost use Rattle.desk_types.specs.declared.limits.TheConstants.{MOST_ENTRIES};
    ghost use Rattle.desk_types.specs.History.{Basis};
    ghost use Rattle.desk_types.specs.Judged.{IsJudged};
    ghost use Rattle.look_back.specs.Kept.{AreTakes};

    ghost Value = { Basis };

    ghost view = { λ a. record { rules = a.rules; history = reverse a.entries.items } };

    ghost invariant = { λ a. IsJudged a.rules (reverse a.entries.items)
        × AreTakes (reverse a.entries.items) (reverse a.takes.items)
        × (length a.entries.items ≤ MOST_ENTRIES) };
}

impl PlainDesk {
    /// Returns an empty desk with rules Two. Takes no memory.
    pub fn new(alloc: Global) -> PlainDesk
        ensures { result ≡ basis Two [] }
    {
        PlainDesk::with_rules(alloc, Rules::Two)
    }

    /// Returns an empty desk with these rules. Takes no memory.
    pub fn with_rules(alloc: Global, rules: Rules) -> PlainDesk
        ensures { result ≡ record { rules = rules; history = [] } }
    {
        PlainDesk {
            alloc,
            rules,
            entries: Vec::new(alloc),
            takes: Vec::new(alloc),
        }
    }

    /// Returns the accepted entries, oldest first. Takes no memory.
    pub fn entries(&self) -> &[Entry]
        ensures { reverse result.now ≡ self.now.history }
    {
        &self.entries
    }

    /// Returns the newest entry with this UniqueID, if there is one. Takes no memory. The desk's
    /// owner, not the desk, checks for repeats.
    pub fn earlier(&self, uid: &Id) -> Option<&Entry>
        ensures { option_copied result ≡ find (λ e. same e.stamped.uid uid.now) self.now.history }
    {
        earlier(self.entries.as_slice(), uid)
    }

    /// Returns the facts for judging.
    #[tactic(auto, using(crate::proofs::ByTwo::by_two))]
    fn facts(&self) -> Result<Searched<'_>, AllocError>
        ensures { IfOk result (λ facts. facts ≡ self.now.history) }
    {
        search(self.alloc, self.entries.as_slice(), self.takes.as_slice())
    }

    /// Accepts a judged command. Out of memory leaves the desk unchanged.
    pub fn append(&mut self, change: Change) -> Result<(), AllocError>
        requires room { length self.old.history + 1 ≤ MOST_ENTRIES }
        // As `settle` of `Desk` requires: a change isn't judged again.
        requires judged { IsChange self.old.rules self.old.history change.stamped change }
        ensures ok { OnOk result (self.new ≡ basis_after self.old change.stamped) }
        // A `&mut` hides the type's invariant, so the call says it again.
        ensures judged { OnOk result (IsJudged self.new.rules self.new.history) }
        // This desk may be used on: it takes its memory before it changes anything.
        ensures err { OnErr result (self.new ≡ self.old) }
    {
        let entry = Entry {
            number: self.entries.len() as u64 + 1,
            stamped: change.stamped,
            effective: change.minute,
        };
        entry.ranges_hold();
        self.entries.push(entry)?;
        if self.takes.push(change.takes).is_err() {
            self.entries.pop();
            return Err(AllocError);
        }
        Ok(())
    }
}

fn earlier<'a>(entries: &'a [Entry], uid: &Id) -> Option<&'a Entry>
    ensures { option_copied result ≡ find (λ e. same e.stamped.uid uid.now) (reverse entries.now) }
{
    entries.iter().rev().find(|entry| entry.stamped.uid == *uid)
}

#[tactic(auto, using(crate::proofs::ByTwo::by_two))]
impl Desk for PlainDesk {
    ghost use Rattle.std.specs.Prelude.{◌≡◌};
    ghost use Rattle.desk_types.specs.Judged.{IsJudged};

    ghost Stands = { λ desk B. (B ≡ desk) × IsJudged B.rules B.history };

    fn fresh(alloc: Global, rules: Rules) -> PlainDesk {
        PlainDesk::with_rules(alloc, rules)
    }

    fn rules(&self) -> Rules {
        self.rules
    }

    fn judge(&self, stamped: &Stamped) -> Result<Change, JudgeFault> {
        judge(self.alloc, self.rules, &self.facts()?, stamped)
    }

    fn settle(&mut self, change: Change) -> Result<(), AllocError> {
        self.append(change)
    }

    fn minute(&self) -> Option<Minute> {
        desk_minute(self.entries.as_slice())
    }

    fn selected(&self, machine: &Id) -> Option<Id> {
        selected_on(self.entries.as_slice(), machine)
    }

    fn sheet_of(&self, product: &Id, machine: &Id) -> Result<Option<SheetRows>, AllocError> {
        match sheet_of(self.entries.as_slice(), product, machine) {
            Some(rows) => Ok(Some(rows.clone()?)),
            None => Ok(None),
        }
    }

    fn fronts(&self, machine: &Id) -> Result<Fronts, AllocError> {
        fronts(self.alloc, &self.facts()?, machine)
    }

    fn reel(&self, reel: &Id) -> Option<ReelView> {
        reel_view(self.entries.as_slice(), self.takes.as_slice(), reel)
    }

    fn reel_row(&self, reel: &Id) -> Option<ReelRow> {
        reel_row(self.entries.as_slice(), self.takes.as_slice(), reel)
    }

    fn slots_of(&self, machine: &Id) -> Result<Option<Mounts>, AllocError> {
        slots_of(
            self.alloc,
            self.entries.as_slice(),
            self.takes.as_slice(),
            machine,
        )
    }

    fn free_reels(&self, part: &Id) -> Result<ReelViews, AllocError> {
        free_reels(
            self.alloc,
            self.entries.as_slice(),
            self.takes.as_slice(),
            part,
        )
    }

    ghost is_judged = { λ desk B stands. stands.1 };
}
