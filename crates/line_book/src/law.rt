//! The laws of the book. They are for proofs, and do nothing when they run.

ghost use Rattle.std.specs.Prelude.{◌≡◌, ◌↔◌, ◌++◌, ◌∷◌, ◌≤◌, [], None, true, false, List, length, Contains};
ghost use Rattle.std.specs.List.{list_any};
ghost use Rattle.desk_types.specs.declared.command.Command.{Command};
ghost use Rattle.desk_types.specs.declared.command.Entry.{Entry};
ghost use Rattle.desk_types.specs.declared.command.Stamped.{Stamped};
ghost use Rattle.desk_types.specs.declared.rules.Rules.{Rules};
ghost use Rattle.desk_types.specs.Id.{Name};
ghost use Rattle.desk_types.specs.History.{History, accept, now_of};
ghost use Rattle.desk_types.specs.Judged.{IsJudged};
ghost use Rattle.desk_types.specs.Refusals.{slots_refusal};
ghost use Rattle.desk_types.specs.Setup.{sheet_on};
ghost use Rattle.desk_types.specs.Work.{in_work_on};
ghost use Rattle.line_book.specs.declared.note.Matter.{Matter};
ghost use Rattle.line_book.specs.declared.note.Matter.TheVariants.{Decision};
ghost use Rattle.line_book.specs.declared.note.Note.{Note};
ghost use Rattle.line_book.specs.Book.{Book, closes, is_fault, is_open, is_decided};
ghost use Rattle.line_book.specs.Causes.{causes, concerns, stops, setup_causes, work_causes};
ghost use Rattle.line_book.specs.Doubt.{unsettled_by, is_settled};
ghost use Rattle.line_book.specs.Go.{MayWork};

/// A refusal stops: until an accepted command closes the entry or somebody decides, its machine may
/// not work, however the two lists grow. An entry about a slot stops it while the sheet has the
/// slot. Holds for any history.
pub fn a_refusal_stops()
    ensures { (H : History) (later : List Entry) (B more : Book) (n : Note) (machine : Name)
        → Contains B n → is_open H B n ≡ true
        → concerns (sheet_on (later ++ H) machine) machine n.matter ≡ true
        → list_any (λ (e : Entry). closes n.matter e.stamped.command) later ≡ false
        → is_decided more n ≡ false
        → MayWork (later ++ H) (B ++ more) machine → ⊥ }
{}

/// A machine without causes may work, and a machine that may work has none: so each slot of its
/// sheet is fed, as a start of work at the desk minute would verify it.
pub fn go_means_verified()
    ensures exact { (rules : Rules) (H : History) (B : Book) (machine : Name) → IsJudged rules H
        → causes H B machine ≡ [] ↔ MayWork H B machine }
    ensures start { (rules : Rules) (H : History) (B : Book) (machine : Name) → IsJudged rules H
        → (go : MayWork H B machine) → slots_refusal H (now_of H) machine go.rows ≡ None }
{}

/// What is closed or decided stays so: no entry opens again, however the two lists grow. Holds for
/// any history.
pub fn closed_stays_closed()
    ensures { (H later : History) (B more : Book) (n : Note)
        → is_open H B n ≡ false → is_open (later ++ H) (B ++ more) n ≡ false }
{}

/// Each open entry has a way out: a command of the right kind, once it is accepted, or a decision.
/// Once all entries are closed and a board is in work, only the setup stops the machine.
pub fn each_red_has_a_way_out()
    ensures some { (m : Matter) → is_fault m ≡ true → (c : Command) × (closes m c ≡ true) }
    ensures handled { (H : History) (B : Book) (n : Note) (s : Stamped) → n.after ≤ length H
        → closes n.matter s.command ≡ true → is_open (accept H s) B n ≡ false }
    ensures decided { (H : History) (B : Book) (n d : Note)
        → d.matter ≡ Decision n.number → is_open H (B ++ d ∷ []) n ≡ false }
    ensures closed { (H : History) (B : Book) (machine : Name)
        → list_any (stops H B machine) B ≡ false → work_causes (in_work_on H machine) ≡ []
        → causes H B machine ≡ setup_causes H B machine (sheet_on H machine) }
{}

/// Doubt is settled: once the entry's slot was loaded or unloaded, no later command adds a piece to
/// those that the entry makes doubtful, or takes one away.
pub fn doubt_is_settled()
    ensures { (rules : Rules) (H later : History) (n : Note) → IsJudged rules (later ++ H)
        → is_settled H n ≡ true → unsettled_by (later ++ H) n ≡ unsettled_by H n }
{}
