//! Laws of time.

ghost use Rattle.std.specs.Prelude.{◌≡◌, ◌≢◌, ℕ, ◌+◌, ◌-◌, ◌≤◌, true, false, Some, is_some, List, ◌∷◌, ◌++◌, All};
ghost use Rattle.desk_types.specs.declared.command.Command.TheVariants.{ReelBaked};
ghost use Rattle.desk_types.specs.declared.command.Entry.{Entry};
ghost use Rattle.desk_types.specs.declared.rules.Rules.{Rules};
ghost use Rattle.desk_types.specs.Id.{Name};
ghost use Rattle.desk_types.specs.History.{History, IsPrefix, desk_minute, now_of};
ghost use Rattle.desk_types.specs.Pieces.{is_mounted};
ghost use Rattle.desk_types.specs.FloorLife.{exposure_starts, exposure_of, is_expired, out_since};
ghost use Rattle.desk_types.specs.Judged.{IsJudged};
ghost use Rattle.desk_laws.specs.Verified.{mounts};

/// The desk minute never falls once a command is accepted. Holds for any history.
pub fn desk_minute_never_falls()
    ensures { (G H : History) (minute : ℕ) → IsPrefix G H → desk_minute G ≡ Some minute
        → (later : ℕ) × (desk_minute H ≡ Some later) × (minute ≤ later) }
{}

/// Exposure never falls between bakes: neither as minutes pass, in any history, nor as entries are
/// added to an accepted history. The second case excludes entries that take effect before the
/// minute, such as a seal that ends the exposure.
pub fn exposure_never_falls()
    ensures minutes { (H : History) (reel : Name) (earlier later : ℕ) → earlier ≤ later
        → exposure_of H reel earlier ≤ exposure_of H reel later }
    // A bake is the only thing that gives floor life back.
    ensures entries { (rules : Rules) (G : History) (more : List Entry)
        (reel : Name) (earlier later : ℕ)
        → IsJudged rules (more ++ G)
        → All (λ (e : Entry). e.stamped.command ≢ ReelBaked reel) more
        → All (λ (e : Entry). earlier ≤ e.effective) more
        → earlier ≤ later
        → exposure_of G reel earlier ≤ exposure_of (more ++ G) reel later }
{}

/// Exposure is at most the minutes since the last bake, or else the receipt. Holds for any history.
pub fn exposure_is_no_longer()
    ensures { (H : History) (reel : Name) (minute : ℕ)
        → exposure_of H reel minute ≤ minute - exposure_starts H reel }
{}

/// A reel is not expired when its load or splice takes effect. It may expire on its slot.
pub fn expired_reels_are_not_mounted()
    ensures { (rules : Rules) (G H : History) (e : Entry) (machine slot reel : Name)
        → IsPrefix (e ∷ G) H
        → IsJudged rules H
        → mounts machine slot reel e.stamped.command ≡ true
        → is_expired G reel e.effective ≡ false }
{}

/// A mounted reel is out of its bag, so its exposure grows every minute from the desk minute on.
pub fn mounted_reels_are_out()
    ensures out { (rules : Rules) (H : History) (reel : Name) → IsJudged rules H
        → is_mounted H reel ≡ true
        → is_some (out_since H reel) ≡ true }
    // So the floor life of a reel runs on while it stays on its slot.
    ensures exposure { (rules : Rules) (H : History) (reel : Name) (minute : ℕ) → IsJudged rules H
        → is_mounted H reel ≡ true → now_of H ≤ minute
        → exposure_of H reel minute ≡ exposure_of H reel (now_of H) + (minute - now_of H) }
{}
