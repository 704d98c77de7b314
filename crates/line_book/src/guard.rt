//! The guard of a line: the part of the two lists that decides whether a machine may work.

ghost use Rattle.std.specs.Prelude.{◌≡◌, ◌↔◌, ◌||◌, ◌++◌, ◌∷◌, [], Some, not, map, filter, unwrap_or, IfOk, OnOk, if◌then◌else◌};
ghost use Rattle.std.specs.List.{list_any};
ghost use Rattle.desk_types.specs.Desk.{HasRoom};
ghost use Rattle.desk_types.specs.History.{History, Basis, accept};
ghost use Rattle.desk_types.specs.Id.{Name};
ghost use Rattle.desk_types.specs.Setup.{allows, sheet_on};
ghost use Rattle.desk_types.specs.Work.{in_work_on, work_by};
ghost use Rattle.setup_sheets.specs.Alternates.{is_pair_among};
ghost use Rattle.line_book.specs.Book.{Book, closes, decides, is_open};
ghost use Rattle.line_book.specs.Causes.{causes, concerns};
ghost use Rattle.line_book.specs.declared.cause.Cause.TheVariants.{NoWork, Open};
ghost use Rattle.line_book.specs.Go.{MayWork};
ghost use Rattle.line_book.specs.Guard.{IsGuard, IsNextNote, running_at, tape_at};
ghost use Rattle.line_book.specs.Undecided.{is_known, repeats, undecided};

use crate::cause::Cause;
use crate::closing::{closes, concerns, decides, is_fault, needs_decision, repeats};
use crate::holds::Holds;
use crate::note::Note;
use crate::setup::Setup;
use crate::tapes::{Tape, note_tape, tape_at};
use desk_types::{Command, Desk, Id, SheetRows, Stamped};
use setup_sheets::Alternates;
use std::alloc::{AllocError, Global};
use std::collections::BTreeMap;

/// The boards in work, the tapes, the alternates and the holds, and the open and undecided entries. It keeps
/// neither list.
#[derive(Drop)]
pub struct Guard {
    alloc: Global,
    running: BTreeMap<Id, Id>,
    tapes: BTreeMap<(Id, Id), Tape>,
    setup: Setup,
    open_notes: Vec<Note>,
    undecided: Vec<Note>,
}

impl Guard {
    /// Returns the guard of two empty lists. Takes no memory.
    #[tactic(auto, unfolding(desk_types::specs::Tape::tape_of))]
    pub fn new(alloc: Global) -> Guard
        ensures { IsGuard [] [] result }
    {
        Guard {
            alloc,
            running: BTreeMap::new(alloc),
            tapes: BTreeMap::new(alloc),
            setup: Setup {
                alternates: Alternates::new(alloc),
                holds: Holds::new(alloc),
            },
            open_notes: Vec::new(alloc),
            undecided: Vec::new(alloc),
        }
    }

    /// Takes in an accepted command. After an `Err` drop the guard.
    pub fn accepted(&mut self, stamped: &Stamped) -> Result<(), AllocError>
        ensures { (H : History) (B : Book) → IsGuard H B self.old
            → OnOk result (IsGuard (accept H stamped.now) B self.new) }
    {
        note_running(&mut self.running, &stamped.command)?;
        note_tape(self.alloc, &mut self.tapes, &stamped.command)?;
        note_alternate(&mut self.setup.alternates, &stamped.command)?;
        close(&mut self.open_notes, &stamped.command);
        Ok(())
    }

    /// Takes in an entry of the book. One about an install comes before that install is accepted.
    /// After an `Err` drop the guard.
    pub fn noted(&mut self, note: &Note) -> Result<(), AllocError>
        ensures { (H : History) (B : Book) → IsGuard H B self.old → IsNextNote H B note.now
            → OnOk result (IsGuard H (B ++ note.now ∷ []) self.new) }
    {
        self.setup.holds.noted(note.number, &note.matter)?;
        decide(&mut self.open_notes, note);
        decide(&mut self.undecided, note);
        keep(&mut self.open_notes, is_fault(&note.matter), note)?;
        keep(&mut self.undecided, needs_decision(&note.matter), note)?;
        Ok(())
    }

    /// Returns whether the book has the refusal or the faulty message in an entry that still stands.
    /// Write no further entry then.
    pub fn is_known(&self, refusal: &Note) -> bool
        ensures { (H : History) (B : Book) → IsGuard H B self.now
            → result ≡ is_known H B refusal.now }
    {
        let standing = if is_fault(&refusal.matter) {
            self.open_notes.as_slice()
        } else {
            self.undecided.as_slice()
        };
        has_repeat(standing, refusal)
    }

    /// Returns the open entries, oldest first.
    pub fn open_notes(&self) -> &[Note]
        ensures { (H : History) (B : Book) → IsGuard H B self.now
            → result.now ≡ filter (is_open H B) B }
    {
        self.open_notes.as_slice()
    }

    /// Returns the board in work on the machine.
    pub fn board_on(&self, machine: &Id) -> Option<Id>
        ensures { (H : History) (B : Book) → IsGuard H B self.now
            → result ≡ in_work_on H machine.now }
    {
        self.running.get(machine).copied()
    }

    /// Returns the reels of the slot since its last load, first one first, with the spent ones.
    pub fn tape_on(&self, machine: &Id, slot: &Id) -> &[Id]
        // By `IsGuard` it is the tape of the history.
        ensures { result.now ≡ tape_at self.now.tapes machine.now slot.now }
    {
        tape_at(&self.tapes, machine, slot)
    }

    /// Returns the entries that wait for a decision, oldest first.
    pub fn undecided(&self) -> &[Note]
        ensures { (H : History) (B : Book) → IsGuard H B self.now → result.now ≡ undecided B }
    {
        self.undecided.as_slice()
    }

    /// Returns all causes why the machine may not work: no board in work, then the open entries in
    /// their order, then the slots in sheet order.
    pub fn causes<D: Desk>(
        &self,
        alloc: Global,
        desk: &D,
        machine: &Id,
    ) -> Result<Vec<Cause>, AllocError>
        requires { HasRoom D.Stands desk.now 0 }
        // Whatever the desk and the guard keep, they answer by the two lists alone.
        ensures all { (S : Basis) (B : Book) → D.Stands desk.now S → IsGuard S.history B self.now
            → IfOk result (λ found. found.items ≡ causes S.history B machine.now) }
        // There is no cause exactly if the machine may work.
        ensures exact { (S : Basis) (B : Book) → D.Stands desk.now S → IsGuard S.history B self.now
            → IfOk result (λ found. found.items ≡ [] ↔ MayWork S.history B machine.now) }
    {
        let mut found = work_causes(alloc, self.running.get(machine).is_some())?;
        let sheet = sheet_on(desk, machine)?;
        add_open(&mut found, self.open_notes.as_slice(), &sheet, machine)?;
        self.setup.add_causes(&mut found, desk, machine, &sheet)?;
        Ok(found)
    }
}

fn note_running(running: &mut BTreeMap<Id, Id>, command: &Command) -> Result<(), AllocError>
    ensures { (m : Name)
        → OnOk result (running_at running.new m
        ≡ unwrap_or (work_by m command.now) (running_at running.old m)) }
{
    match command {
        Command::WorkStarted { machine, board } => {
            running.insert(*machine, *board)?;
        }
        Command::WorkCompleted { machine, .. } => {
            running.remove(machine);
        }
        _ => {}
    }
    Ok(())
}

fn note_alternate(alternates: &mut Alternates, command: &Command) -> Result<(), AllocError>
    ensures { (p q : Name)
        → OnOk result (is_pair_among alternates.new p q
        ≡ (allows p q command.now || is_pair_among alternates.old p q)) }
{
    if let Command::AlternateAllowed { part, alternate } = command {
        alternates.add(*part, *alternate)?;
    }
    Ok(())
}

fn close(notes: &mut Vec<Note>, command: &Command)
    ensures { notes.new.items ≡ filter (λ n. not (closes n.matter command.now)) notes.old.items }
{
    notes.retain(|n| !closes(&n.matter, command));
}

fn decide(notes: &mut Vec<Note>, decision: &Note)
    ensures { notes.new.items
        ≡ filter (λ n. not (decides n.number decision.now.matter)) notes.old.items }
{
    notes.retain(|n| !decides(n.number, &decision.matter));
}

fn keep(notes: &mut Vec<Note>, wanted: bool, note: &Note) -> Result<(), AllocError>
    ensures { OnOk result
        (notes.new.items ≡ notes.old.items ++ (if wanted then note.now ∷ [] else [])) }
{
    if wanted {
        notes.push(note.clone()?)?;
    }
    Ok(())
}

fn has_repeat(notes: &[Note], refusal: &Note) -> bool
    ensures { result ≡ list_any (repeats refusal.now) notes.now }
{
    notes.iter().any(|n| repeats(refusal, n))
}

fn add_open(
    found: &mut Vec<Cause>,
    notes: &[Note],
    sheet: &Option<SheetRows>,
    machine: &Id,
) -> Result<(), AllocError>
    ensures { OnOk result (found.new.items ≡ found.old.items
        ++ map Open (filter (λ n. concerns sheet.now machine.now n.matter) notes.now)) }
{
    for note in notes {
        add_if(found, concerns(sheet, machine, &note.matter), note)?;
    }
    Ok(())
}

fn add_if(found: &mut Vec<Cause>, wanted: bool, note: &Note) -> Result<(), AllocError>
    ensures { OnOk result
        (found.new.items ≡ found.old.items ++ (if wanted then Open note.now ∷ [] else [])) }
{
    if wanted {
        found.push(Cause::Open(note.clone()?))?;
    }
    Ok(())
}

fn work_causes(alloc: Global, is_working: bool) -> Result<Vec<Cause>, AllocError>
    ensures { IfOk result (λ found. found.items ≡ (if is_working then [] else NoWork ∷ [])) }
{
    let mut found = Vec::new(alloc);
    if !is_working {
        found.push(Cause::NoWork)?;
    }
    Ok(found)
}

fn sheet_on<D: Desk>(desk: &D, machine: &Id) -> Result<Option<SheetRows>, AllocError>
    ensures { (S : Basis) → D.Stands desk.now S
        → IfOk result (λ sheet. sheet ≡ sheet_on S.history machine.now) }
{
    match desk.selected(machine) {
        Some(product) => desk.sheet_of(&product, machine),
        None => Ok(None),
    }
}
