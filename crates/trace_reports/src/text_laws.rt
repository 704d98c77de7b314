//! Laws of the reports. They are for proofs and do nothing at run time.

ghost use Rattle.std.specs.Prelude.{◌≡◌, ◌≢◌, ◌↔◌, ℕ, List, [], ◌∷◌, All, Contains, map};
ghost use Rattle.std.specs.List.{IsDistinct};
ghost use Rattle.csv.specs.Reading.{default_config, records};
ghost use Rattle.desk_types.specs.declared.placement.Placement.{Placement};
ghost use Rattle.desk_types.specs.declared.rules.Rules.{Rules};
ghost use Rattle.desk_types.specs.declared.sheet.SheetRow.{SheetRow};
ghost use Rattle.desk_types.specs.declared.trace_detail.TraceDetail.{TraceDetail};
ghost use Rattle.desk_types.specs.declared.trace_detail.TraceDetail.TheVariants.{One, Two, Three};
ghost use Rattle.desk_types.specs.Id.{Name, same};
ghost use Rattle.desk_types.specs.History.{History};
ghost use Rattle.desk_types.specs.Judged.{IsJudged};
ghost use Rattle.trace_reports.specs.Csv.{csv_text};
ghost use Rattle.trace_reports.specs.Kit.{kit_rows, reels_in};
ghost use Rattle.trace_reports.specs.Traces.{project, board_columns, lot_columns, board_header, lot_header, overdue_header, overdue_row, board_text, lot_text, overdue_text, board_rows, lot_rows, pieces_on, pieces_of_lot};

/// Reading a report with `csv` gives back its header and records, even with commas, quotes or line ends in fields.
/// Holds for all records with at least one field.
pub fn texts_read_back()
    ensures { (header : List (List ℕ)) (rows : List (List (List ℕ)))
        → All (λ r. r ≢ []) (header ∷ rows)
        → records default_config (csv_text header rows) ≡ header ∷ rows }
{}

/// A kit names no reel twice. Holds for every history that either set of rules accepts.
pub fn no_reel_is_given_twice()
    ensures { (rules : Rules) (H : History) (boards : ℕ) (sheet : List SheetRow) → IsJudged rules H
        → IsDistinct same (reels_in (kit_rows H boards [] sheet)) }
{}

/// Reading a trace or an overdue list with `csv` gives back its header and rows, whatever the names
/// contain.
pub fn reports_read_back()
    ensures board { (detail : TraceDetail) (pieces : List Placement)
        → records default_config (board_text detail pieces) ≡ project
        (board_columns detail) board_header ∷ board_rows detail pieces }
    ensures lot { (detail : TraceDetail) (pieces : List Placement)
        → records default_config (lot_text detail pieces) ≡ project
        (lot_columns detail) lot_header ∷ lot_rows detail pieces }
    ensures overdue { (pieces : List Placement)
        → records default_config (overdue_text pieces) ≡ overdue_header ∷ map overdue_row pieces }
{
    texts_read_back();
}

/// Board and lot traces of the same pieces agree on boards, lots, parts and reels.
pub fn traces_are_converse()
    ensures lots { (pieces : List Placement) (board lot : Name)
        → ((part : Name) × Contains (board_rows Two (pieces_on board pieces)) (part ∷ lot ∷ []))
        ↔ Contains (lot_rows One (pieces_of_lot lot pieces)) (board ∷ []) }
    ensures parts { (pieces : List Placement) (board part lot : Name)
        → Contains (board_rows Two (pieces_on board pieces)) (part ∷ lot ∷ [])
        ↔ Contains (lot_rows Two (pieces_of_lot lot pieces)) (board ∷ part ∷ []) }
    ensures reels { (pieces : List Placement) (board part lot reel : Name)
        → Contains (board_rows Three (pieces_on board pieces)) (part ∷ lot ∷ reel ∷ [])
        ↔ Contains (lot_rows Three (pieces_of_lot lot pieces)) (board ∷ part ∷ reel ∷ []) }
{}
