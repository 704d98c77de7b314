//! From one run on a file to the next.

ghost use Rattle.std.specs.Prelude.{◌≡◌, ℕ, Option};
ghost use Rattle.sqlite_wal.specs.Recovery.{Image};
ghost use Rattle.sqlite_trees.specs.Tree.{Trees};
ghost use Rattle.sqlite.specs.Effect.{Database};
ghost use Rattle.sqlite.specs.Files.{HoldsDatabase};
ghost use Rattle.desk_types.specs.declared.rules.Rules.TheVariants.{Two};
ghost use Rattle.desk_types.specs.History.{History};
ghost use Rattle.desk_types.specs.Judged.{IsJudged};
ghost use Rattle.line_tables.specs.Rows.{Holds, HoldsAt};
ghost use Rattle.line_replay.specs.Rows.{ledger_tables};
ghost use Rattle.desk_file.specs.Files.{Begins, HasOursFirst, IsFoundIn};

use line_replay::rows_tell_lists_apart;

/// A law: each run on files that hold the tables of a judged history begins with that history and its greatest number,
/// whatever greatest number is requested. It serves proofs and does nothing when it runs.
pub fn next_run_goes_on()
    // So a file with the tables of a history meets what `open_desk` asks of a file.
    ensures ours_first { (image : Image) (trees : Trees) (greatest : ℕ) (H : History)
        → ∥ HoldsDatabase image trees ∥₁
        → HoldsAt (ledger_tables greatest H) trees → HasOursFirst image }
    ensures held { (image : Image) (trees : Trees) (greatest : ℕ) (H : History)
        → ∥ HoldsDatabase image trees ∥₁
        → HoldsAt (ledger_tables greatest H) trees
        → (db : Database) → IsFoundIn image db → Holds db (ledger_tables greatest H) }
    // A greatest number that a run asks for never replaces that of the file.
    ensures same { (image : Image) (trees : Trees) (greatest : ℕ) (H : History)
        → ∥ HoldsDatabase image trees ∥₁
        → HoldsAt (ledger_tables greatest H) trees → IsJudged Two H
        → (make : Option ℕ) (next : ℕ) (H' : History) → Begins image make next H' → IsJudged Two H'
        → (next ≡ greatest) × (H' ≡ H) }
{
    rows_tell_lists_apart();
}
