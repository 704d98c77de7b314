//! The desk that keeps the current state.

ghost use Rattle.std.specs.Prelude.{◌≡◌, [], IfOk, OnOk};
ghost use Rattle.std.specs.Option.{option_copied};
ghost use Rattle.desk_types.specs.declared.rules.Rules.TheVariants.{Two};
ghost use Rattle.desk_types.specs.History.{History, Basis, basis, basis_after, accept, desk_minute};
ghost use Rattle.desk_types.specs.Setup.{sheet_on};
ghost use Rattle.desk_types.specs.Desk.{HasRoom, IsChange};
ghost use Rattle.desk_types.specs.Tables.{tables_of};
ghost use Rattle.desk_types.specs.Edits.{with_edits};
ghost use Rattle.state_rows.specs.Kept.{tables_in, but_placements, unnumbered};
ghost use Rattle.feeder_state.specs.Restored.{AreRowsOf};
ghost use Rattle.feeder_state.specs.State.{IsState, Represents};

use crate::floor::{Floor, floor_of};
use crate::free::free_reels;
use crate::setup::{Setup, setup_of};
use crate::tapes::spends;
use crate::views::{reel_view, slots_of};
use crate::work::{Work, work_of};
use desk_types::{
    Change, Designator, Desk, Fronts, Id, JudgeFault, Minute, Mounts, ReelRow, ReelView, ReelViews,
    Rules, SheetRow, SheetRows, Stamped,
};
use judging::fronts::fronts;
use judging::{Facts, judge};
use setup_sheets::{Alternates, Parts, Sheet};
use state_rows::{KeepsRows, RowEdit, RowSet, Views, edits_for};
use std::alloc::{AllocError, Global};

/// A desk that keeps the current state, in rows and indexes, and no list of commands. It looks names up and searches no
/// commands. It represents every history, judged by its rules, that leads to this state.
pub struct StateDesk {
    alloc: Global,
    rules: Rules,
    minute: Option<Minute>,
    rows: RowSet,
    setup: Setup,
    floor: Floor,
    work: Work,
}

/// Written, so that a crate that drops a desk doesn't prove again how each map of it is dropped.
impl Drop for StateDesk {
    fn drop(self) {
        let StateDesk {
            alloc: _,
            rules: _,
            minute: _,
            rows: _rows,
            setup: _setup,
            floor: _floor,
            work: _work,
        } = self;
    }
}

impl StateDesk {
    /// A desk of rules Two that has accepted nothing. Takes no memory.
    pub fn new(alloc: Global) -> StateDesk
        ensures { Represents result (basis Two []) }
    {
        StateDesk::with_rules(alloc, Rules::Two)
    }

    /// A desk of these rules that has accepted nothing. Takes no memory.
    pub fn with_rules(alloc: Global, rules: Rules) -> StateDesk
        ensures { Represents result (basis rules []) }
    {
        StateDesk {
            alloc,
            rules,
            minute: None,
            rows: RowSet::new(alloc),
            setup: Setup::new(alloc),
            floor: Floor::new(alloc),
            work: Work::new(alloc),
        }
    }

    /// A desk of rules Two that is made of rows and the desk minute, for each list whose tables the
    /// rows are.
    pub fn restore(
        alloc: Global,
        rows: &RowSet,
        minute: Option<Minute>,
    ) -> Result<StateDesk, AllocError>
        // Some history has these rows; which one, nobody needs to know.
        requires { (H : History) × AreRowsOf H rows.now × (minute ≡ desk_minute H) }
        ensures { (H : History) → AreRowsOf H rows.now → minute ≡ desk_minute H
            → IfOk result (λ desk. Represents desk (basis Two H)) }
    {
        let Some(_) = minute else {
            return Ok(StateDesk::new(alloc));
        };
        let copy = rows.clone()?;
        let setup = setup_of(alloc, rows)?;
        let floor = floor_of(alloc, rows)?;
        let work = work_of(alloc, rows)?;
        Ok(StateDesk {
            alloc,
            rules: Rules::Two,
            minute,
            rows: copy,
            setup,
            floor,
            work,
        })
    }

    #[tactic(auto, using(crate::proofs::AcceptedChanges::of_state))]
    fn sheet_on(&self, machine: &Id) -> Option<&Sheet>
        ensures { (H : History) → IsState H self.now
            → option_copied result ≡ sheet_on H machine.now }
    {
        let product = self.rows.selected_on(machine)?;
        self.setup.sheet(&product, machine)
    }

    /// Accepts a judged change. After an `Err` drop the desk, whose state is unknown.
    fn accept(&mut self, change: Change) -> Result<(), AllocError>
        requires room { HasRoom Represents self.old 1 }
        requires judged { (B : Basis) → Represents self.old B
            → IsChange B.rules B.history change.stamped change }
        ensures stands { (B : Basis) → Represents self.old B
            → OnOk result (Represents self.new (basis_after B change.stamped)) }
    {
        let edits = edits_for(self.alloc, self, &change, 0)?;
        self.apply(change, edits.as_slice())
    }

    /// Accepts a judged change by its edits. After an `Err` drop the desk, whose state is unknown.
    fn apply(&mut self, change: Change, edits: &[RowEdit]) -> Result<(), AllocError>
        requires room { HasRoom Represents self.old 1 }
        requires judged { (B : Basis) → Represents self.old B
            → IsChange B.rules B.history change.stamped change }
        requires lead { (B : Basis) → Represents self.old B
            → unnumbered (with_edits edits.now (tables_of B.history))
            ≡ unnumbered (tables_of (accept B.history change.stamped)) }
        ensures stands { (B : Basis) → Represents self.old B
            → OnOk result (Represents self.new (basis_after B change.stamped)) }
        ensures rows { OnOk result (tables_in self.new.rows
            ≡ but_placements (with_edits edits.now (tables_in self.old.rows))
            (tables_in self.old.rows)) }
    {
        change.stamped.ranges_hold();
        let _ = change.minute.get();
        let command = &change.stamped.command;
        self.minute = Some(change.minute);
        self.rows.apply_but_placements(edits)?;
        self.floor.note(
            self.alloc,
            &self.rows,
            command,
            change.takes.as_slice(),
            spends(edits),
        )?;
        self.work.note(self.alloc, command)?;
        self.setup.note(self.alloc, change.stamped.command)?;
        Ok(())
    }
}

#[tactic(auto, using(crate::proofs::AcceptedChanges::of_state))]
impl Facts for StateDesk {
    ghost use Rattle.feeder_state.specs.Tape.{tape_at};
    ghost use Rattle.feeder_state.specs.State.{IsState};
    ghost use Rattle.feeder_state.specs.Laws.{state_judged, state_tells_live};

    ghost Stands = { λ desk H. IsState H desk };

    ghost reels_on = { λ desk machine slot. tape_at desk.floor.tapes machine slot };

    fn minute(&self) -> Option<Minute> {
        self.minute
    }

    fn parts(&self) -> &Parts {
        self.rows.part_set()
    }

    fn alternates(&self) -> &Alternates {
        self.rows.alternate_set()
    }

    fn selected_on(&self, machine: &Id) -> Option<Id> {
        self.rows.selected_on(machine)
    }

    fn sheet_of(&self, product: &Id, machine: &Id) -> Option<&SheetRows> {
        self.setup.sheet_of(product, machine)
    }

    fn look_ups_on(&self, machine: &Id) -> Option<&Sheet> {
        self.sheet_on(machine)
    }

    fn row_on(&self, machine: &Id, slot: &Id) -> Option<&SheetRow> {
        let sheet = self.sheet_on(machine)?;
        sheet.row(slot)
    }

    fn slot_on(&self, machine: &Id, designator: &Designator) -> Option<Id> {
        let sheet = self.sheet_on(machine)?;
        sheet.slot(designator)
    }

    fn reel_row(&self, reel: &Id) -> Option<ReelRow> {
        self.rows.reel(reel).copied()
    }

    fn left_of(&self, reel: &Id) -> u64 {
        match self.rows.reel(reel) {
            Some(row) => row.remaining,
            None => 0,
        }
    }

    fn is_mounted(&self, reel: &Id) -> bool {
        self.rows.is_mounted(reel)
    }

    fn reel_count(&self, machine: &Id, slot: &Id) -> usize {
        self.floor.reel_count(machine, slot)
    }

    fn reel_at(&self, machine: &Id, slot: &Id, index: usize) -> Option<Id> {
        self.floor.reel_at(machine, slot, index)
    }

    fn in_work_on(&self, machine: &Id) -> Option<Id> {
        self.work.in_work_on(machine)
    }

    fn is_in_work(&self, board: &Id) -> bool {
        match self.rows.board(board) {
            Some(row) => row.machine.is_some(),
            None => false,
        }
    }

    fn product_of(&self, board: &Id) -> Option<Id> {
        let row = self.rows.board(board)?;
        Some(row.product)
    }

    fn placed_on(&self, board: &Id) -> Option<&[Designator]> {
        Some(self.work.placed_on(board))
    }

    fn is_placed_on(&self, board: &Id, designator: &Designator) -> bool {
        self.work.is_placed_on(board, designator)
    }

    ghost is_judged = { state_judged };

    ghost tells_live = { state_tells_live };
}

#[tactic(auto, using(crate::proofs::AcceptedChanges::of_state))]
impl Views for StateDesk {
    ghost use Rattle.feeder_state.specs.State.{Represents};
    ghost use Rattle.feeder_state.specs.Laws.{represented_judged};

    ghost Stands = { λ desk B. Represents desk B };

    fn selected(&self, machine: &Id) -> Option<Id> {
        self.rows.selected_on(machine)
    }

    fn sheet_of(&self, product: &Id, machine: &Id) -> Result<Option<SheetRows>, AllocError> {
        match self.setup.sheet_of(product, machine) {
            Some(rows) => Ok(Some(rows.clone()?)),
            None => Ok(None),
        }
    }

    fn reel(&self, reel: &Id) -> Option<ReelView> {
        reel_view(&self.rows, self.minute, reel)
    }

    fn reel_row(&self, reel: &Id) -> Option<ReelRow> {
        self.rows.reel(reel).copied()
    }

    fn slots_of(&self, machine: &Id) -> Result<Option<Mounts>, AllocError> {
        slots_of(
            self.alloc,
            &self.rows,
            &self.floor,
            self.minute,
            self.setup.has_sheet(machine),
            machine,
        )
    }

    ghost is_judged = { represented_judged };
}

#[tactic(auto, using(crate::proofs::AcceptedChanges::of_state))]
impl Desk for StateDesk {
    ghost use Rattle.feeder_state.specs.State.{Represents};
    ghost use Rattle.feeder_state.specs.Laws.{represented_judged};

    ghost Stands = { λ desk B. Represents desk B };

    fn fresh(alloc: Global, rules: Rules) -> StateDesk {
        StateDesk::with_rules(alloc, rules)
    }

    fn rules(&self) -> Rules {
        self.rules
    }

    fn judge(&self, stamped: &Stamped) -> Result<Change, JudgeFault> {
        judge(self.alloc, self.rules, self, stamped)
    }

    fn settle(&mut self, change: Change) -> Result<(), AllocError> {
        self.accept(change)
    }

    fn minute(&self) -> Option<Minute> {
        Facts::minute(self)
    }

    fn selected(&self, machine: &Id) -> Option<Id> {
        Views::selected(self, machine)
    }

    fn sheet_of(&self, product: &Id, machine: &Id) -> Result<Option<SheetRows>, AllocError> {
        Views::sheet_of(self, product, machine)
    }

    fn fronts(&self, machine: &Id) -> Result<Fronts, AllocError> {
        fronts(self.alloc, self, machine)
    }

    fn reel(&self, reel: &Id) -> Option<ReelView> {
        Views::reel(self, reel)
    }

    fn reel_row(&self, reel: &Id) -> Option<ReelRow> {
        self.rows.reel(reel).copied()
    }

    fn slots_of(&self, machine: &Id) -> Result<Option<Mounts>, AllocError> {
        Views::slots_of(self, machine)
    }

    fn free_reels(&self, part: &Id) -> Result<ReelViews, AllocError> {
        free_reels(
            self.alloc,
            &self.rows,
            &self.floor,
            &self.setup,
            self.minute,
            self.rows.alternate_set(),
            part,
        )
    }

    ghost is_judged = { represented_judged };
}

impl KeepsRows for StateDesk {
    ghost kept_rows = { λ desk. desk.rows };

    fn rows(&self) -> &RowSet {
        &self.rows
    }

    fn settle_edits(&mut self, change: Change, edits: &[RowEdit]) -> Result<(), AllocError> {
        self.apply(change, edits)
    }
}
