//! The laws of alike desks. They are for proofs, and do nothing when they run.

ghost use Rattle.std.specs.Prelude.{◌≡◌, ◌↔◌, ◌+◌, Some, List, ◌∷◌, All, Any, Contains};
ghost use Rattle.std.specs.Option.{option_map};
ghost use Rattle.desk_types.specs.declared.command.Stamped.{Stamped};
ghost use Rattle.desk_types.specs.declared.placement.Placement.{Placement};
ghost use Rattle.desk_types.specs.declared.rules.Rules.{Rules};
ghost use Rattle.desk_types.specs.Command.{IsStamped};
ghost use Rattle.desk_types.specs.Id.{Name};
ghost use Rattle.desk_types.specs.History.{History};
ghost use Rattle.desk_types.specs.Judged.{IsJudged};
ghost use Rattle.desk_types.specs.Outcome.{replies_to, after_commands};
ghost use Rattle.desk_types.specs.Placements.{placements_of, lots_of, boards_of};
ghost use Rattle.desk_laws.specs.Alike.{IsIdle, AreAlike};
ghost use Rattle.desk_laws.specs.Chain.{DeskFile, IsChain, received_over, placed_over, scrapped_over, left_over, origin, receipt_over, lots_over, boards_over};
ghost use Rattle.desk_laws.specs.Past.{NamesNothingPast};

/// Alike desks answer alike: commands that come one after the other get the same replies from both,
/// however many they are, as long as none names a board that the old desk started, or a reel that was
/// spent there. Once no board is in work again, the desks are still alike. This holds of judged
/// histories, by either rules.
///
/// The values of the commands are in their ranges, as those of every command that a program holds.
/// Repeats of a UniqueID and the greatest number are the owner's matter, so replies do not depend on them
/// here.
pub fn alike_desks_answer_alike()
    // A line can go on with the new file, and no sender sees a difference.
    ensures replies { (rules : Rules) (H H' : History) (commands : List Stamped)
        → IsJudged rules H → IsJudged rules H'
        → AreAlike H H' → All IsStamped commands
        → All (λ (s : Stamped). NamesNothingPast H s.command) commands
        → replies_to rules H commands ≡ replies_to rules H' commands }
    // So a third file can follow the second in the same way.
    ensures alike { (rules : Rules) (H H' : History) (commands : List Stamped)
        → IsJudged rules H → IsJudged rules H'
        → AreAlike H H' → All IsStamped commands
        → All (λ (s : Stamped). NamesNothingPast H s.command) commands
        → IsIdle (after_commands rules H commands)
        → AreAlike (after_commands rules H commands) (after_commands rules H' commands) }
{}

/// A third desk that is alike to the second is alike to the first. So it is for every desk of a chain in
/// which each is begun as the one before it ended. This holds of every history.
pub fn alike_desks_chain()
    ensures { (F G H : History) → AreAlike F G → AreAlike G H → AreAlike F H }
{}

/// Over a chain of files a reel's received pieces are placed, scrapped or left in the newest file. The
/// received pieces are those with which it came to the line, and those that counts found in any file.
///
/// A new desk doesn't know a spent reel. If a later file receives its name again, those pieces are new to
/// the line too.
pub fn chain_pieces_balance()
    ensures { (files : List DeskFile) (reel : Name) → IsChain files
        → received_over files reel
        ≡ placed_over files reel + scrapped_over files reel + left_over files reel }
{}

/// Each placed piece of the newest file has the part and the lot with which its reel came to the line, in
/// whichever file that was. So do those of an older file, by the chain up to it.
pub fn chain_keeps_receipts()
    ensures { (file : DeskFile) (older : List DeskFile) → IsChain (file ∷ older)
        → All (λ (p : Placement). option_map origin (receipt_over (file ∷ older) p.reel)
        ≡ Some (p.part, p.lot))
        (placements_of file.whole) }
{}

/// One recall over a chain: by the lots with which the reels came to the line, the boards of a lot are
/// those that some file names. So a board with pieces in two files has the lots of both. A board has a
/// lot exactly if the lot has the board.
pub fn chain_recalls_agree()
    // To read one file after the other misses no board.
    ensures boards { (files : List DeskFile) (lot board : Name) → IsChain files
        → Contains (boards_over files lot) board
        ↔ Any (λ (f : DeskFile). Contains (boards_of f.whole lot) board) files }
    // A board whose pieces lie in two files has the lots of both.
    ensures lots { (files : List DeskFile) (board lot : Name) → IsChain files
        → Contains (lots_over files board) lot
        ↔ Any (λ (f : DeskFile). Contains (lots_of f.whole board) lot) files }
    // Asked from either end, a chain gives the same pairs.
    ensures converse { (files : List DeskFile) (board lot : Name)
        → Contains (lots_over files board) lot ↔ Contains (boards_over files lot) board }
{}
