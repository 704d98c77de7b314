//! A reel's placed, scrapped and received pieces. Entries and takes come oldest first.

ghost use Rattle.std.specs.Prelude.{◌≡◌, ◌-◌, ◌^◌, ◌≤◌, min, length, reverse};
ghost use Rattle.desk_types.specs.declared.limits.TheConstants.{MOST_ENTRIES};
ghost use Rattle.desk_types.specs.declared.rules.Rules.TheVariants.{Two};
ghost use Rattle.desk_types.specs.History.{History};
ghost use Rattle.desk_types.specs.Judged.{IsJudged};
ghost use Rattle.desk_types.specs.Pieces.{received_of};
ghost use Rattle.look_back.specs.Kept.{AreTakes};
ghost use Rattle.look_back.specs.Totals.{is_usage_of, total_of, taken_for};

use crate::pieces::left_of;
use desk_types::{Entry, Id, Purpose, Take, Takes};
use reels::Usage;

fn is_usage_of(usage: Usage, purpose: &Purpose) -> bool
    ensures { result ≡ is_usage_of usage purpose.now }
{
    let placed = purpose.is_placed();
    match usage {
        Usage::Placed => placed,
        Usage::Scrapped => !placed,
    }
}

/// Returns how many of the reel's pieces are taken for this usage, at most the greatest `u64`.
fn taken_for(takes: &[Take], reel: &Id, usage: Usage) -> u64
    ensures { result ≡ min (taken_for usage takes.now reel.now) (2 ^ 64 - 1) }
{
    let mut pieces = 0u64;
    for take in takes {
        if take.reel == *reel && is_usage_of(usage, &take.purpose) {
            pieces = pieces.saturating_add(take.quantity);
        }
    }
    pieces
}

/// Returns the reel's pieces with this usage, for the takes of an accepted history.
pub fn total(takes: &[Takes], reel: &Id, usage: Usage) -> u64
    ensures { (H : History) → IsJudged Two H → length H ≤ MOST_ENTRIES
        → AreTakes H (reverse takes.now)
        → result ≡ total_of usage H reel.now }
{
    let mut pieces = 0u64;
    for last in takes {
        pieces = pieces.saturating_add(taken_for(last.as_slice(), reel, usage));
    }
    pieces
}

/// Returns the reel's received pieces: the receipt's and those found later.
pub fn received_of(entries: &[Entry], takes: &[Takes], reel: &Id) -> u64
    requires most { length entries.now ≤ MOST_ENTRIES }
    requires judged { IsJudged Two (reverse entries.now) }
    requires takes { AreTakes (reverse entries.now) (reverse takes.now) }
    ensures { result ≡ received_of (reverse entries.now) reel.now }
{
    let placed = total(takes, reel, Usage::Placed);
    let scrapped = total(takes, reel, Usage::Scrapped);
    placed + scrapped + left_of(entries, takes, reel)
}
