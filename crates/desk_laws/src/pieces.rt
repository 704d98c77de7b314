//! Laws of pieces.

ghost use Rattle.std.specs.Prelude.{◌≡◌, ℕ, ◌+◌, true, is_some, None, List, All};
ghost use Rattle.desk_types.specs.declared.command.Command.TheVariants.{MaterialsScrapped, CountsTaken};
ghost use Rattle.desk_types.specs.declared.command.Stamped.{Stamped};
ghost use Rattle.desk_types.specs.declared.count.CountRow.{CountRow};
ghost use Rattle.desk_types.specs.declared.rules.Rules.{Rules};
ghost use Rattle.desk_types.specs.declared.rules.Rules.TheVariants.{One};
ghost use Rattle.desk_types.specs.Id.{Name};
ghost use Rattle.desk_types.specs.History.{History, IsPrefix, accept};
ghost use Rattle.desk_types.specs.Setup.{receipt_of};
ghost use Rattle.desk_types.specs.Pieces.{left_of, picks_of, found_of, received_of, placed_of, scrapped_of, is_mounted};
ghost use Rattle.desk_types.specs.Outcome.{pieces_of};
ghost use Rattle.desk_types.specs.Refusals.{refusal_of};
ghost use Rattle.desk_types.specs.Judged.{IsJudged};

/// A reel's received pieces are placed, scrapped or remaining. Pieces missing at a count are
/// scrapped ones, and found pieces are received ones.
pub fn pieces_balance()
    ensures { (rules : Rules) (H : History) (reel : Name) → IsJudged rules H
        → received_of H reel ≡ placed_of H reel + scrapped_of H reel + left_of H reel }
{}

/// Under rules One, counts find no pieces.
pub fn nothing_is_found_by_rules_one()
    ensures { (H : History) (reel : Name) → IsJudged One H → found_of H reel ≡ 0 }
{}

/// A received reel without pieces stays without pieces, under either set of rules.
pub fn spent_stays_spent()
    ensures { (rules : Rules) (G H : History) (reel : Name) → IsPrefix G H → IsJudged rules H
        → is_some (receipt_of G reel) ≡ true → left_of G reel ≡ 0
        → left_of H reel ≡ 0 }
{}

/// An accepted command finds no piece on a mounted reel. Holds for any history.
pub fn mounted_reels_gain_nothing()
    ensures { (rules : Rules) (H : History) (s : Stamped) (reel : Name)
        → refusal_of rules H s ≡ None
        → is_mounted H reel ≡ true
        → found_of (accept H s) reel ≡ found_of H reel }
{}

/// An accepted scrap takes exactly its quantity, from one reel or several. Holds for any history.
pub fn scraps_are_whole()
    ensures { (rules : Rules) (H : History) (s : Stamped) (machine slot : Name) (quantity : ℕ)
        → refusal_of rules H s ≡ None
        → s.command ≡ MaterialsScrapped machine slot quantity
        → pieces_of (picks_of H s.command) ≡ quantity }
{}

/// An accepted count leaves exactly the counted pieces on each reel. Holds for any history.
pub fn counts_are_exact()
    ensures { (rules : Rules) (H : History) (s : Stamped) (counts : List CountRow)
        → refusal_of rules H s ≡ None
        → s.command ≡ CountsTaken counts
        → All (λ (row : CountRow). left_of (accept H s) row.reel ≡ row.quantity) counts }
{}
