//! The trait of a desk, and a run of commands on one.

ghost use Rattle.std.specs.Prelude.{◌≡◌, ℕ, IfOk, OnOk, length};
ghost use Rattle.desk_types.specs.History.{Basis};
ghost use Rattle.desk_types.specs.Outcome.{reply_to, after_command, replies_to, after_commands};
ghost use Rattle.desk_types.specs.Desk.{HasRoom};

use crate::answer::{Refusal, Replies, Reply};
use crate::change::Change;
use crate::command::Stamped;
use crate::front::Fronts;
use crate::id::Id;
use crate::list::Listing;
use crate::number::Minute;
use crate::row::ReelRow;
use crate::rules::Rules;
use crate::sheet::SheetRows;
use crate::view::{Mounts, ReelView, ReelViews};
use std::alloc::{AllocError, Global};

/// Why judging a command produced no change.
#[derive(Clone, Copy, PartialEq, Eq)]
pub enum JudgeFault {
    /// The rules refuse the command.
    Refused(Refusal),
    /// There was too little memory to judge the command.
    NoMemory,
}

impl From<AllocError> for JudgeFault {
    ghost use Rattle.std.specs.Prelude.{◌≡◌};
    ghost use Rattle.desk_types.specs.declared.desk.JudgeFault.TheVariants.{NoMemory};

    ghost from_gives = { λ _ fault. fault ≡ NoMemory };

    fn from(_error: AllocError) -> JudgeFault {
        JudgeFault::NoMemory
    }
}

/// A desk judges commands by its rules and its history of accepted commands.
///
/// `Stands` relates a desk to each basis that it represents: its rules, and a history. Contracts
/// hold for every such basis; a call asks for room in one of them. A desk keeps its allocator, so its methods take
/// none.
pub trait Desk {
    ghost use Rattle.std.specs.Prelude.{[]};
    ghost use Rattle.desk_types.specs.Front.{fronts_of};
    ghost use Rattle.desk_types.specs.History.{Basis, basis, basis_after, desk_minute};
    ghost use Rattle.desk_types.specs.Setup.{selected_on, sheet_of};
    ghost use Rattle.desk_types.specs.View.{reel_view, mounts_on};
    ghost use Rattle.desk_types.specs.Tables.{reel_row};
    ghost use Rattle.desk_types.specs.Free.{free_reels};
    ghost use Rattle.desk_types.specs.Desk.{HasRoom, IsChange, IsJudgement};
    ghost use Rattle.desk_types.specs.Judged.{IsJudged};

    /// The bases that the desk represents.
    ghost Stands: { Self → Basis → Type 0 };

    /// Returns an empty desk with these rules. Takes no memory.
    fn fresh(alloc: Global, rules: Rules) -> Self
        ensures { Stands result (basis rules []) };

    /// Returns the desk's rules. Takes no memory.
    fn rules(&self) -> Rules
        ensures { (B : Basis) → Stands self.now B → result ≡ B.rules };

    /// Judges the command without changing the desk. The desk's owner checks for repeats and for
    /// the greatest number.
    fn judge(&self, stamped: &Stamped) -> Result<Change, JudgeFault>
        // One more entry must fit under the greatest number: a number of a command is at most that.
        requires room { HasRoom Stands self.now 1 }
        // For every history that leads here: a desk without a history can't tell them apart.
        ensures { (B : Basis) → Stands self.now B
            → IsJudgement B.rules B.history stamped.now result };

    /// Accepts a judged command. After an `Err` the desk's state is unknown: drop it.
    fn settle(&mut self, change: Change) -> Result<(), AllocError>
        requires room { HasRoom Stands self.old 1 }
        // What isn't judged is never settled: this is why `settle` refuses nothing.
        requires judged { (B : Basis) → Stands self.old B
            → IsChange B.rules B.history change.stamped change }
        // After an `Err` nothing is said of the desk, so its owner makes it anew.
        ensures { (B : Basis) → Stands self.old B
            → OnOk result (Stands self.new (basis_after B change.stamped)) };

    /// Returns the desk minute: the greatest effective minute of the accepted commands.
    fn minute(&self) -> Option<Minute>
        ensures { (B : Basis) → Stands self.now B → result ≡ desk_minute B.history };

    /// Returns the product selected on the machine.
    fn selected(&self, machine: &Id) -> Option<Id>
        ensures { (B : Basis) → Stands self.now B → result ≡ selected_on B.history machine.now };

    /// Returns the product's last sheet on the machine.
    fn sheet_of(&self, product: &Id, machine: &Id) -> Result<Option<SheetRows>, AllocError>
        ensures { (B : Basis) → Stands self.now B
            → IfOk result (λ rows. rows ≡ sheet_of B.history product.now machine.now) };

    /// Returns the slots of the selected product's sheet in order, each with its front reel at the
    /// desk minute. The list is empty if no product is selected.
    fn fronts(&self, machine: &Id) -> Result<Fronts, AllocError>
        ensures { (B : Basis) → Stands self.now B
            → IfOk result (λ fronts. fronts ≡ fronts_of B.history machine.now) };

    /// Returns the reel at the desk minute, or none if it wasn't received. Takes no memory.
    fn reel(&self, reel: &Id) -> Option<ReelView>
        ensures { (B : Basis) → Stands self.now B → result ≡ reel_view B.history reel.now };

    /// Returns the reel's row, or none if it wasn't received. Takes no memory.
    fn reel_row(&self, reel: &Id) -> Option<ReelRow>
        ensures { (B : Basis) → Stands self.now B → result ≡ reel_row B.history reel.now };

    /// Returns the live reels on the machine's slots, by slot and position, or none if no sheet is
    /// for the machine. It includes slots that a later sheet no longer has.
    fn slots_of(&self, machine: &Id) -> Result<Option<Mounts>, AllocError>
        ensures { (B : Basis) → Stands self.now B
            → IfOk result (λ mounts. mounts ≡ mounts_on B.history machine.now) };

    /// Returns the reels that can be loaded for the part at the desk minute. Reels with the fewest
    /// minutes left come first, those without a limit last; ties are ordered by name.
    fn free_reels(&self, part: &Id) -> Result<ReelViews, AllocError>
        ensures { (B : Basis) → Stands self.now B
            → IfOk result (λ reels. reels ≡ free_reels B.history part.now) };

    /// A desk can reach each history that the desk represents, by the rules with it.
    ghost is_judged: { (desk : Self) (B : Basis) → Stands desk B → IsJudged B.rules B.history };
}

/// Judges the commands in order and settles each accepted one. Stops when out of memory; the desk's
/// state is then unknown.
pub fn run<D: Desk>(
    alloc: Global,
    desk: &mut D,
    messages: &[Stamped],
) -> Result<Replies, AllocError>
    // Asked once, for all of the messages: even if each is accepted, the numbers suffice.
    requires room { HasRoom D.Stands desk.old (length messages.now) }
    // No word of what the desk keeps: two desks of one history give the same replies.
    ensures replies { (B : Basis) → D.Stands desk.old B
        → IfOk result (λ replies. replies ≡ replies_to B.rules B.history messages.now) }
    // So a run can be followed by another one, whose replies are those of the longer history.
    ensures stands { (B : Basis) → D.Stands desk.old B → OnOk result (D.Stands desk.new
        (record B { history = after_commands B.rules B.history messages.now })) }
{
    let mut replies = Vec::new(alloc);
    for message in messages {
        let reply = answer(desk, message)?;
        replies.push(reply)?;
    }
    Ok(Listing::new(replies))
}

/// Judges one command and settles it if it is accepted.
fn answer<D: Desk>(desk: &mut D, message: &Stamped) -> Result<Reply, AllocError>
    requires room { HasRoom D.Stands desk.old 1 }
    ensures reply { (B : Basis) → D.Stands desk.old B
        → IfOk result (λ reply. reply ≡ reply_to B.rules B.history message.now) }
    ensures stands { (B : Basis) → D.Stands desk.old B → OnOk result (D.Stands desk.new
        (record B { history = after_command B.rules B.history message.now })) }
{
    match desk.judge(message) {
        Ok(change) => {
            let detail = change.detail().clone()?;
            desk.settle(change)?;
            Ok(Reply::Accepted(detail))
        }
        Err(JudgeFault::Refused(refusal)) => Ok(Reply::Refused(refusal)),
        Err(JudgeFault::NoMemory) => Err(AllocError),
    }
}
