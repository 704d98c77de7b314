//! Whether a reel may be used, which a judge asks in two questions.

ghost use Rattle.std.specs.Prelude.{◌≡◌, IfOk};

use super::id;
use desk_types::{Level, Minute, Moisture, Quantity};
use reels::Reel;
use std::test::Fail;

fn reel_of_level(level: Level, label: u64, at: Minute) -> Result<Reel, Fail>
    ensures { IfOk result (λ reel. reel.last ≡ at) }
{
    let moisture = Moisture::new(level, label).ok_or("no label")?;
    let pieces = Quantity::new(100).ok_or("no quantity")?;
    Ok(Reel::receive(id("K1")?, id("P")?, id("L")?, moisture, pieces, at))
}

/// A reel of level 6 may be used from its bake on, one of level 1 from its receipt on.
#[test]
fn a_reel_waits_for_its_bake(rt: HostRuntime) -> Result<(), Fail> {
    let at = Minute::new(50).ok_or("no minute")?;
    assert!(rt; reel_of_level(Level::One, 0, at)?.usable(at));
    let mut reel = reel_of_level(Level::Six, 60, at)?;
    let row = reel.row;
    assert!(rt; !row.baked && !reel.usable(at));
    reel.bake(at);
    let row = reel.row;
    assert!(rt; row.baked && reel.usable(at));
    Ok(())
}
