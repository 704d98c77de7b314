//! A law about repeated messages. It is for proofs and does nothing at run time.

ghost use Rattle.std.specs.Prelude.{◌≡◌, ◌↔◌, IsTrue};
ghost use Rattle.desk_types.specs.declared.command.Stamped.{Stamped};
ghost use Rattle.desk_answers.specs.Repeats.{is_same};

/// Two messages count as the same exactly if all their fields are equal.
pub fn same_messages_are_equal()
    ensures { (first again : Stamped) → IsTrue (is_same first again) ↔ (first ≡ again) }
{}
