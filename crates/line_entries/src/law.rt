//! The laws of entries. They are for proofs, and do nothing when they run.

ghost use Rattle.std.specs.Prelude.{◌≡◌, None, true, List, ℕ};
ghost use Rattle.std.specs.List.{list_any};
ghost use Rattle.hex.specs.Hex.{IsBytes};
ghost use Rattle.desk_types.specs.Id.{Name, same};
ghost use Rattle.desk_types.specs.History.{History};
ghost use Rattle.desk_types.specs.Pieces.{live_on};
ghost use Rattle.desk_answers.specs.declared.answer.Answer.{Answer};
ghost use Rattle.line_entries.specs.Refusal.{mounting};
ghost use Rattle.line_entries.specs.Told.{told_text};

/// A refused load or splice that makes no entry names a live reel of that very slot. Holds for any
/// history.
pub fn only_a_live_reel_verifies()
    ensures { (H : History) (answer : Answer) (machine slot reel word : Name)
        → mounting H answer machine slot reel word ≡ None
        → list_any (λ r. same r reel) (live_on H machine slot) ≡ true }
{}

/// No two messages have the same text: the text tells each byte.
pub fn a_text_tells_each_byte()
    ensures { (a b : List ℕ) → IsBytes a → IsBytes b → told_text a ≡ told_text b → a ≡ b }
{}
