//! A law of inputs. It is for proofs and does nothing at run time.

ghost use Rattle.std.specs.Prelude.{◌≡◌, ℕ, List};
ghost use Rattle.desk_types.specs.History.{History};
ghost use Rattle.desk_types.specs.declared.rules.Rules.{Rules};
ghost use Rattle.desk_feed.specs.Repeats.{after_all, without_repeats};

/// Repeats act once: if no line is answered Unavailable, removing lines accepted before keeps the
/// final history. Holds for any history.
pub fn repeats_act_once()
    ensures { (rules : Rules) (greatest : ℕ) (H : History) (lines : List (List ℕ))
        → after_all rules greatest H lines
        ≡ after_all rules greatest H (without_repeats rules greatest H lines) }
{}
