//! The facts that judging needs about the accepted commands.

use desk_types::{Designator, Id, Minute, ReelRow, SheetRow, SheetRows};
use setup_sheets::{Alternates, Parts, Sheet};

/// Access to the state after the accepted commands, by searching a history or from maps. No call
/// takes memory.
///
/// `Stands` relates the facts to each history that they represent. Answers hold for every such
/// history.
pub trait Facts {
    ghost use Rattle.std.specs.Prelude.{◌≡◌, nat_lt, IsSome, IfSome, List, length, slice_get};
    ghost use Rattle.std.specs.List.{filter};
    ghost use Rattle.std.specs.Option.{option_copied};
    ghost use Rattle.desk_types.specs.declared.rules.Rules.TheVariants.{Two};
    ghost use Rattle.desk_types.specs.Id.{Name};
    ghost use Rattle.desk_types.specs.History.{History, desk_minute};
    ghost use Rattle.desk_types.specs.Setup.{is_part, selected_on, sheet_of, sheet_on, row_on, slot_on};
    ghost use Rattle.desk_types.specs.Pieces.{left_of, live_on, is_mounted};
    ghost use Rattle.desk_types.specs.Work.{in_work_on, is_in_work, product_of, is_placed_on};
    ghost use Rattle.desk_types.specs.Judged.{IsJudged};
    ghost use Rattle.setup_sheets.specs.Names.{is_among};
    ghost use Rattle.setup_sheets.specs.Alternates.{AreAlternates};
    ghost use Rattle.desk_types.specs.Row.{IsRowIfAny};
    ghost use Rattle.judging.specs.Facts.{ArePlacedOn};

    /// The histories that the facts represent.
    ghost Stands: { Self → History → Type 0 };

    /// The reels on a machine's slot, first one first, possibly including spent ones.
    ghost reels_on: { Self → Name → Name → List Name };

    /// Returns the desk minute, or none for an empty history.
    fn minute(&self) -> Option<Minute>
        // Equal for every history that the facts stand for, as in all clauses below.
        ensures { (H : History) → Stands self.now H → result ≡ desk_minute H };

    /// Returns the defined parts.
    fn parts(&self) -> &Parts
        ensures { (H : History) (part : Name) → Stands self.now H
            → is_among result.now part ≡ is_part H part };

    /// Returns the named alternates.
    fn alternates(&self) -> &Alternates
        ensures { (H : History) → Stands self.now H → AreAlternates H result.now };

    /// Returns the product selected on the machine.
    fn selected_on(&self, machine: &Id) -> Option<Id>
        ensures { (H : History) → Stands self.now H → result ≡ selected_on H machine.now };

    /// Returns the product's last sheet on the machine.
    fn sheet_of(&self, product: &Id, machine: &Id) -> Option<&SheetRows>
        ensures { (H : History) → Stands self.now H
            → option_copied result ≡ sheet_of H product.now machine.now };

    /// Returns the selected product's sheet with indexes, for callers with many lookups, if the
    /// facts store it. None doesn't mean that there is no sheet.
    fn look_ups_on(&self, machine: &Id) -> Option<&Sheet>
        // Says nothing of None: a caller then asks for the sheet without indexes.
        ensures { (H : History) → Stands self.now H → IsSome result
            → option_copied result ≡ sheet_on H machine.now }
    {
        let _ = machine;
        None
    }

    /// Returns the slot's row in the selected product's sheet.
    fn row_on(&self, machine: &Id, slot: &Id) -> Option<&SheetRow>
        ensures { (H : History) → Stands self.now H
            → option_copied result ≡ row_on H machine.now slot.now };

    /// Returns the designator's slot in the selected product's sheet.
    fn slot_on(&self, machine: &Id, designator: &Designator) -> Option<Id>
        ensures { (H : History) → Stands self.now H
            → result ≡ slot_on H machine.now designator.now };

    /// Returns the reel's row, or none if it wasn't received.
    fn reel_row(&self, reel: &Id) -> Option<ReelRow>
        // Of this history: so its pieces add up, and its times are in range.
        ensures { (H : History) → Stands self.now H → IsRowIfAny H reel.now result };

    /// Returns the pieces left on the reel, 0 if it wasn't received.
    fn left_of(&self, reel: &Id) -> u64
        ensures { (H : History) → Stands self.now H → result ≡ left_of H reel.now };

    /// Returns whether the reel is live on some slot.
    fn is_mounted(&self, reel: &Id) -> bool
        ensures { (H : History) → Stands self.now H → result ≡ is_mounted H reel.now };

    /// Returns the number of reels in `reels_on` for the slot.
    fn reel_count(&self, machine: &Id, slot: &Id) -> usize
        // Of `reels_on`, with spent reels: to leave them out would need a search.
        ensures { result ≡ length (reels_on self.now machine.now slot.now) };

    /// Returns the slot's reel at this index, from 0.
    fn reel_at(&self, machine: &Id, slot: &Id, index: usize) -> Option<Id>
        ensures { result ≡ slice_get (reels_on self.now machine.now slot.now) index };

    /// Returns the board in work on the machine.
    fn in_work_on(&self, machine: &Id) -> Option<Id>
        ensures { (H : History) → Stands self.now H → result ≡ in_work_on H machine.now };

    /// Returns whether the board is in work on some machine.
    fn is_in_work(&self, board: &Id) -> bool
        ensures { (H : History) → Stands self.now H → result ≡ is_in_work H board.now };

    /// Returns the board's product, if it was ever started.
    fn product_of(&self, board: &Id) -> Option<Id>
        ensures { (H : History) → Stands self.now H → result ≡ product_of H board.now };

    /// Returns the designators placed on the board in order, for callers with many lookups, if the
    /// facts store them. None doesn't mean that none is placed.
    fn placed_on(&self, board: &Id) -> Option<&[Designator]>
        // Says nothing of None: a caller then asks for each designator.
        ensures { (H : History) → Stands self.now H
            → IfSome result (λ names. ArePlacedOn H board.now names.now) }
    {
        let _ = board;
        None
    }

    /// Returns whether the designator is placed on the board.
    fn is_placed_on(&self, board: &Id, designator: &Designator) -> bool
        ensures { (H : History) → Stands self.now H
            → result ≡ is_placed_on H board.now designator.now };

    /// Every history that the facts represent is accepted by the rules.
    ghost is_judged: { (facts : Self) (H : History) → Stands facts H → IsJudged Two H };

    /// A slot's live reels are those of `reels_on` with pieces left.
    ghost tells_live: { (facts : Self) (H : History) (machine slot : Name) → Stands facts H
        → filter (λ reel. nat_lt 0 (left_of H reel)) (reels_on facts machine slot)
        ≡ live_on H machine slot };
}
