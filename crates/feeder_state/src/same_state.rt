//! A law of the desk. It is for proofs, and does nothing when it runs.

ghost use Rattle.std.specs.Prelude.{◌≡◌, List, All};
ghost use Rattle.desk_types.specs.declared.command.Stamped.{Stamped};
ghost use Rattle.desk_types.specs.Command.{IsStamped};
ghost use Rattle.desk_types.specs.History.{Basis};
ghost use Rattle.desk_types.specs.Outcome.{replies_to};
ghost use Rattle.feeder_state.specs.contracts.desk.StateDeskDesk.TheImpl.{ghosts as state};

use crate::desk::StateDesk;

/// Two histories that one desk represents are answered alike: they give the same replies to any number of later
/// commands, whether or not memory suffices for them. The commands' values are in their ranges, as in every command
/// that a program holds.
pub fn same_state_same_replies(desk: &StateDesk)
    ensures { (A B : Basis) (messages : List Stamped) → state.Stands desk.now A
        → state.Stands desk.now B
        → All IsStamped messages
        → replies_to A.rules A.history messages ≡ replies_to B.rules B.history messages }
{}
