//! Judging a command without accepting it.

ghost use Rattle.std.specs.Prelude.{◌≡◌, IfOk};
ghost use Rattle.desk_types.specs.declared.rules.Rules.{Rules as Ruling};
ghost use Rattle.desk_types.specs.History.{History, effective_minute};
ghost use Rattle.desk_types.specs.Refusals.{command_refusal, is_too_far_ahead};
ghost use Rattle.desk_types.specs.Outcome.{detail_of, takes_by};
ghost use Rattle.desk_types.specs.Pieces.{picks_of};
ghost use Rattle.desk_types.specs.FloorLife.{minutes_left};
ghost use Rattle.desk_types.specs.Desk.{IsJudgement};
ghost use Rattle.judging.specs.Facts.{IsBy};
ghost use Rattle.judging.specs.Placing.{IsPassed, IsPicked};
ghost use Rattle.judging.specs.Words.{TakesNone};

use crate::counts::picks_of_counts;
use crate::facts::Facts;
use crate::installs::picks_of_install;
use crate::loads::{load_refusal, splice_refusal};
use crate::refusals::{
    alternate_refusal, closing_refusal, completion_refusal, opening_refusal, part_refusal,
    receipt_refusal, selection_refusal, unload_refusal,
};
use crate::scraps::picks_of_scrap;
use crate::sheets::check_definition;
use crate::starts::check_start;
use crate::takes::{pieces_of, reels_of, takes_for};
use desk_types::{
    Change, Command, Detail, FURTHEST_AHEAD, Id, JudgeFault, Listing, Minute, Pick, Refusal, Rules,
    Stamped, Takes,
};
use std::alloc::{AllocError, Global};

/// Refuses a command that takes no pieces. Its refusal is the same under both sets of rules.
#[tactic(auto, unfolding(desk_types::specs::Refusals::command_refusal))]
fn check_command<F: Facts>(
    alloc: Global,
    facts: &F,
    minute: Minute,
    command: &Command,
) -> Result<(), JudgeFault>
    requires known { TakesNone command.now }
    requires by { IsBy F.Stands facts.now minute }
    ensures { (rules : Ruling) (H : History) → F.Stands facts.now H
        → IsPassed (command_refusal rules H minute command.now) result }
{
    let refusal = match command {
        Command::PartDefined { part } => part_refusal(facts, part),
        Command::AlternateAllowed { part, alternate } => alternate_refusal(facts, part, alternate),
        Command::SheetDefined { machine, rows, .. } => {
            return check_definition(alloc, facts, machine, rows);
        }
        Command::ProductSelected { machine, product } => selection_refusal(facts, machine, product),
        Command::ReelReceived { reel, part, .. } => receipt_refusal(facts, reel, part),
        Command::ReelOpened { reel } => opening_refusal(facts, reel),
        Command::ReelSealed { reel } => closing_refusal(facts, reel),
        Command::ReelBaked { reel } => closing_refusal(facts, reel),
        Command::MaterialsLoaded {
            machine,
            slot,
            reel,
        } => load_refusal(facts, minute, machine, slot, reel),
        Command::MaterialsSpliced {
            machine,
            slot,
            reel,
        } => splice_refusal(facts, minute, machine, slot, reel),
        Command::MaterialsUnloaded { machine, slot } => unload_refusal(facts, machine, slot),
        Command::WorkStarted { machine, board } => {
            return check_start(alloc, facts, minute, machine, board);
        }
        Command::WorkCompleted { machine, board } => completion_refusal(facts, machine, board),
        Command::ClockSet => None,
        _ => unreachable!(),
    };
    match refusal {
        Some(refusal) => Err(JudgeFault::Refused(refusal)),
        None => Ok(()),
    }
}

#[tactic(auto, unfolding(desk_types::specs::Refusals::command_refusal))]
fn command_picks<F: Facts>(
    alloc: Global,
    rules: Rules,
    facts: &F,
    minute: Minute,
    command: &Command,
) -> Result<Listing<Pick>, JudgeFault>
    requires { IsBy F.Stands facts.now minute }
    ensures { (H : History) → F.Stands facts.now H
        → IsPicked (command_refusal rules H minute command.now) (picks_of H command.now) result }
{
    match command {
        Command::MaterialsInstalled {
            machine,
            board,
            designators,
        } => picks_of_install(alloc, facts, machine, board, designators),
        Command::MaterialsScrapped {
            machine,
            slot,
            quantity,
        } => picks_of_scrap(alloc, facts, machine, slot, *quantity),
        Command::CountsTaken { counts } => picks_of_counts(alloc, rules, facts, counts.as_slice()),
        _ => {
            check_command(alloc, facts, minute, command)?;
            Ok(Listing::new(Vec::new(alloc)))
        }
    }
}

fn detail<F: Facts>(
    alloc: Global,
    facts: &F,
    minute: Minute,
    command: &Command,
    picks: &[Pick],
) -> Result<Detail, AllocError>
    requires { IsBy F.Stands facts.now minute }
    ensures { (H : History) → F.Stands facts.now H → picks.now ≡ picks_of H command.now
        → IfOk result (λ detail. detail ≡ detail_of H minute command.now) }
{
    command.ranges_hold();
    match command {
        Command::MaterialsLoaded { reel, .. } => Ok(Detail::MinutesLeft(minutes_left(
            facts, minute, reel,
        ))),
        Command::MaterialsSpliced { reel, .. } => Ok(Detail::MinutesLeft(minutes_left(
            facts, minute, reel,
        ))),
        Command::MaterialsInstalled { .. } => Ok(Detail::Reels(reels_of(alloc, picks)?)),
        Command::MaterialsScrapped { .. } => Ok(Detail::Taken(pieces_of(picks))),
        Command::CountsTaken { .. } => Ok(Detail::Taken(pieces_of(picks))),
        _ => Ok(Detail::Plain),
    }
}

fn takes_by<F: Facts>(
    alloc: Global,
    facts: &F,
    minute: Minute,
    command: &Command,
    picks: &[Pick],
) -> Result<Takes, AllocError>
    requires by { IsBy F.Stands facts.now minute }
    requires are { (H : History) → F.Stands facts.now H → picks.now ≡ picks_of H command.now }
    ensures { (H : History) → F.Stands facts.now H
        → IfOk result (λ taken. taken ≡ takes_by H minute command.now) }
{
    Ok(takes_for(alloc, facts, minute, picks)?)
}

fn minutes_left<F: Facts>(facts: &F, minute: Minute, reel: &Id) -> Option<u64>
    requires { IsBy F.Stands facts.now minute }
    ensures { (H : History) → F.Stands facts.now H → result ≡ minutes_left H reel.now minute }
{
    let row = facts.reel_row(reel)?;
    row.minutes_left(minute)
}

fn is_too_far_ahead<F: Facts>(facts: &F, stamped: &Stamped) -> bool
    ensures { (H : History) → F.Stands facts.now H → result ≡ is_too_far_ahead H stamped.now }
{
    match facts.minute() {
        Some(desk) if stamped.command != Command::ClockSet => {
            stamped.minute.get() > desk.get() + FURTHEST_AHEAD
        }
        _ => false,
    }
}

fn effective_minute<F: Facts>(facts: &F, own: Minute) -> Minute
    ensures { (H : History) → F.Stands facts.now H → result ≡ effective_minute H own }
{
    match facts.minute() {
        Some(desk) if desk > own => desk,
        _ => own,
    }
}

/// Judges a command by the rules, without accepting it.
#[tactic(auto, unfolding(desk_types::specs::Refusals::refusal_of))]
pub fn judge<F: Facts>(
    alloc: Global,
    rules: Rules,
    facts: &F,
    stamped: &Stamped,
) -> Result<Change, JudgeFault>
    // Facts that stand for no history could answer anything.
    requires stands { (H : History) × F.Stands facts.now H }
    // One result for every history that the facts stand for: the change, or the first refusal.
    ensures { (H : History) → F.Stands facts.now H → IsJudgement rules H stamped.now result }
{
    if is_too_far_ahead(facts, stamped) {
        return Err(JudgeFault::Refused(Refusal::TooFarAhead));
    }
    let minute = effective_minute(facts, stamped.minute);
    let command = &stamped.command;
    let picks = command_picks(alloc, rules, facts, minute, command)?;
    let picks = picks.as_slice();
    Ok(Change {
        stamped: stamped.clone()?,
        minute,
        detail: detail(alloc, facts, minute, command, picks)?,
        takes: takes_by(alloc, facts, minute, command, picks)?,
    })
}
