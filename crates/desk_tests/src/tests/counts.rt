//! The effect of a count on a reel.

use super::id;
use desk_types::{Level, Minute, Moisture, Quantity};
use reels::{Reel, Usage};
use std::test::Fail;

/// A count below the remaining pieces scraps the difference. A count above them finds the
/// difference, which counts as received.
#[test]
fn a_count_scraps_or_finds_pieces(rt: HostRuntime) -> Result<(), Fail> {
    let at = Minute::new(50).ok_or("no minute")?;
    let moisture = Moisture::new(Level::One, 0).ok_or("no label")?;
    let pieces = Quantity::new(100).ok_or("no quantity")?;
    let mut reel = Reel::receive(id("K1")?, id("P")?, id("L")?, moisture, pieces, at);
    reel.take(30, Usage::Placed);
    reel.count(65);
    let row = reel.row;
    assert!(rt; row.remaining == 65 && row.placed == 30 && row.scrapped == 5);
    reel.rise(90);
    let row = reel.row;
    assert!(rt; row.remaining == 90 && reel.found == 25 && row.received == 125);
    Ok(())
}
