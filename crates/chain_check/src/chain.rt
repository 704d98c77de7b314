//! The chain so far, to which one file after the other is added.

ghost use Rattle.std.specs.Prelude.{◌≡◌, [], ◌∷◌, IfOk, IfErr, List};
ghost use Rattle.desk_types.specs.declared.rules.Rules.TheVariants.{Two};
ghost use Rattle.desk_types.specs.History.{History, basis, IsPrefix};
ghost use Rattle.feeder_state.specs.State.{IsState, Represents};
ghost use Rattle.desk_laws.specs.Chain.{DeskFile};
ghost use Rattle.chain_check.specs.Chained.{IsReason, IsSoFar};

use crate::check::first_difference;
use crate::difference::Difference;
use feeder_state::StateDesk;

/// The files so far are a chain, and this is the desk of the newest one.
#[derive(Drop)]
pub struct Chain {
    newest: StateDesk,
}

impl Chain {
    /// Begins with the first file's desk.
    pub fn first(whole: StateDesk) -> Chain
        // The first file counts as begun empty: there is no older file for it to carry on.
        ensures { (H : History) → Represents whole (basis Two H)
            → IsSoFar result (record { rules = Two; begun = []; whole = H } ∷ []) }
    {
        Chain { newest: whole }
    }

    /// Adds the next file: the desk of the commands with which it was begun, and its whole desk. Returns a difference if
    /// it doesn't carry on the newest file.
    pub fn next(self, begun: &StateDesk, whole: StateDesk) -> Result<Chain, Difference>
        // The desk that is kept is that of the new file: the next file must carry it on.
        ensures ok { (files : List DeskFile) (B H : History) → IsSoFar self files
            → IsState B begun.now → Represents whole (basis Two H) → IsPrefix B H
            → IfOk result
            (λ chain. IsSoFar chain (record { rules = Two; begun = B; whole = H } ∷ files)) }
        // The difference is real, and it rules out that the new desk carries on the newest one.
        ensures err { (G B : History) → IsState G self.newest → IsState B begun.now
            → IfErr result (IsReason G B) }
    {
        let Chain { newest } = self;
        match first_difference(&newest, begun) {
            Some(difference) => Err(difference),
            None => Ok(Chain { newest: whole }),
        }
    }
}
