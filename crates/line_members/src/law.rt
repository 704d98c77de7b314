//! Laws of findings. They are for proofs, and do nothing when they run.

ghost use Rattle.std.specs.Prelude.{◌≡◌, Option, List, ℕ, [], All};
ghost use Rattle.desk_types.specs.declared.change.Change.{Change};
ghost use Rattle.desk_types.specs.declared.take.Take.{Take};
ghost use Rattle.desk_types.specs.Id.{Name};
ghost use Rattle.line_members.specs.declared.named_reels.MachineReels.TheVariants.{Named};
ghost use Rattle.line_members.specs.Accepted.{IsPlain, accepted, compared};
ghost use Rattle.line_members.specs.Agreement.{Agree};
ghost use Rattle.line_members.specs.Comparison.{Tapes};

/// A machine that names no other reel than the desk makes no finding.
pub fn agreement_makes_no_finding()
    // A machine that names no reel for a piece agrees too.
    ensures { (told : List ℕ) (machine board : Name) (tapes : Tapes) (takes : List Take)
        (reels : List (Option Name)) → Agree takes reels
        → compared told machine board tapes takes (Named reels) ≡ [] }
{}

/// No finding is about a refused or faulty message, and none is a decision. So `plain_note` makes its entry, which is
/// read again whatever it tells.
pub fn findings_are_plain()
    ensures { (told : List ℕ) (tapes : Tapes) (change : Change)
        → All IsPlain (accepted told tapes change) }
{}
