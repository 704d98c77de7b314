//! The laws of a recall over a chain. They are for proofs, and do nothing when they run.

ghost use Rattle.std.specs.Prelude.{◌≡◌, ◌↔◌, ◌+◌, ◌<◌, ℕ, List, None, [], ◌∷◌, All, Contains, get_or, map};
ghost use Rattle.desk_types.specs.Id.{Name};
ghost use Rattle.desk_types.specs.History.{History, now_of, desk_minute};
ghost use Rattle.desk_types.specs.Pieces.{left_of, found_of, placed_of, scrapped_of};
ghost use Rattle.desk_laws.specs.Chain.{DeskFile, IsChain, Carries, boards_over, lots_over, new_in};
ghost use Rattle.trace_reports.specs.Sets.{Fields};
ghost use Rattle.chain_check.specs.declared.question.Question.TheVariants.{Names};
ghost use Rattle.chain_check.specs.declared.question.Subject.{Subject};
ghost use Rattle.chain_check.specs.declared.question.Subject.TheVariants.{Board, Lot};
ghost use Rattle.chain_check.specs.Counted.{Moves};
ghost use Rattle.chain_check.specs.Rows.{first_field, named_over, rows_over};

/// The rows over a chain are the recall over it: the first column has exactly what is asked of each placed piece of all
/// files. A board is there exactly if it is among the boards of the lot, and a lot if it is among those of the board. Any begins by which the same whole
/// histories are a chain give the same recall, so no fault in where a begin is said to end can lose a board.
pub fn recalls_find_all_boards()
    ensures named { (subject : Subject) (files : List DeskFile) (paths : List (List ℕ))
        → (name : Name) → IsChain files
        → Contains (named_over subject files) name
        ↔ Contains (map first_field (rows_over (Names subject) paths files)) name }
    ensures all { (files : List DeskFile) (paths : List (List ℕ)) (lot board : Name)
        → IsChain files
        → Contains (boards_over files lot) board
        ↔ Contains (map first_field (rows_over (Names (Lot lot None)) paths files)) board }
    ensures lots { (files : List DeskFile) (paths : List (List ℕ)) (board lot : Name)
        → IsChain files
        → Contains (lots_over files board) lot
        ↔ Contains (map first_field (rows_over (Names (Board board)) paths files)) lot }
    ensures any_begin { (files others : List DeskFile) (lot board : Name) → IsChain files
        → IsChain others
        → map (λ (f : DeskFile). f.whole) files ≡ map (λ (f : DeskFile). f.whole) others
        → Contains (boards_over files lot) board ↔ Contains (boards_over others lot) board }
{}

/// Which files can't come before a file of a chain in place of the one that does. Two histories that the same begin
/// carries on have the same minute and the same pieces left. So no older file can, if the clock of the file between moved
/// on; nor the file itself, if its own did; nor a copy of the one before with an earlier minute. If a file can be left out,
/// then all that it placed or scrapped of each reel was received or found in it: so none that placed a carried reel can.
pub fn gaps_are_refused()
    ensures same { (G G' B : History) → Carries G B → Carries G' B
        → (desk_minute G ≡ desk_minute G')
        × ((reel : Name) → left_of G reel ≡ left_of G' reel) }
    ensures gap { (file before : DeskFile) (older : List DeskFile)
        → IsChain (file ∷ before ∷ older) → Moves before
        → All (λ (other : DeskFile). Carries other.whole file.begun → ⊥) older }
    ensures twice { (file : DeskFile) → Moves file → Carries file.whole file.begun → ⊥ }
    ensures stale { (file before : DeskFile) (older : List DeskFile) (copy : History)
        → IsChain (file ∷ before ∷ older) → now_of copy < now_of before.whole
        → Carries copy file.begun → ⊥ }
    ensures used_up { (file between : DeskFile) (older : List DeskFile) (reel : Name)
        → IsChain (file ∷ between ∷ older) → IsChain (file ∷ older)
        → new_in between reel + found_of between.whole reel
        ≡ placed_of between.whole reel + scrapped_of between.whole reel }
{}
