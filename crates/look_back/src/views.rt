//! The rows and the reported state of reels. Entries and takes come oldest first.

ghost use Rattle.std.specs.Prelude.{◌≡◌, ◌≤◌, length, reverse};
ghost use Rattle.desk_types.specs.declared.limits.TheConstants.{MOST_ENTRIES};
ghost use Rattle.desk_types.specs.declared.rules.Rules.TheVariants.{Two};
ghost use Rattle.desk_types.specs.Judged.{IsJudged};
ghost use Rattle.desk_types.specs.Tables.{reel_row};
ghost use Rattle.desk_types.specs.View.{reel_view};
ghost use Rattle.look_back.specs.Kept.{AreTakes};

use crate::floor_life::reel_of;
use crate::mounts::is_mounted;
use crate::pieces::left_of;
use crate::setup::{desk_minute, receipt};
use crate::totals::{received_of, total};
use desk_types::{Entry, Id, ReelRow, ReelView, Takes};
use judging::lives::life_left;
use reels::Usage;

/// Returns the reel's row, or none if it wasn't received. Takes no memory.
pub fn reel_row(entries: &[Entry], takes: &[Takes], name: &Id) -> Option<ReelRow>
    requires most { length entries.now ≤ MOST_ENTRIES }
    requires judged { IsJudged Two (reverse entries.now) }
    requires takes { AreTakes (reverse entries.now) (reverse takes.now) }
    ensures { result ≡ reel_row (reverse entries.now) name.now }
{
    let reel = reel_of(entries, name)?;
    Some(ReelRow {
        reel: *name,
        received: received_of(entries, takes, name),
        placed: total(takes, name, Usage::Placed),
        scrapped: total(takes, name, Usage::Scrapped),
        remaining: left_of(entries, takes, name),
        ..reel.row
    })
}

/// Returns the reel at the desk minute, or none if it wasn't received. Takes no memory.
pub fn reel_view(entries: &[Entry], takes: &[Takes], name: &Id) -> Option<ReelView>
    requires most { length entries.now ≤ MOST_ENTRIES }
    requires judged { IsJudged Two (reverse entries.now) }
    requires takes { AreTakes (reverse entries.now) (reverse takes.now) }
    ensures { result ≡ reel_view (reverse entries.now) name.now }
{
    let minute = desk_minute(entries)?;
    let told = receipt(entries, name)?;
    let row = reel_row(entries, takes, name)?;
    let found = row.received - told.quantity.get();
    let mounted = is_mounted(entries, takes, name);
    Some(ReelView::of_row(&row, found, life_left(&row, minute), mounted))
}
