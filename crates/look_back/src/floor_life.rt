//! Reels, rebuilt by replaying the commands on them from the oldest on.

ghost use Rattle.std.specs.Prelude.{◌≡◌, ◌≤◌, None, ◌∷◌, reverse};
ghost use Rattle.std.specs.Option.{ForSome};
ghost use Rattle.desk_types.specs.declared.rules.Rules.TheVariants.{Two};
ghost use Rattle.desk_types.specs.History.{History};
ghost use Rattle.desk_types.specs.Setup.{receipt_of};
ghost use Rattle.desk_types.specs.FloorLife.{open_by};
ghost use Rattle.desk_types.specs.Judged.{IsJudged};
ghost use Rattle.reels.specs.Reel.{IsReelOf, StandsFor};
ghost use Rattle.look_back.specs.Life.{is_bake};

use crate::setup::receipt_by;
use desk_types::{Command, Entry, Id};
use reels::Reel;

/// Returns whether the command leaves the reel out of its bag, or none if it doesn't handle it.
fn open_by(name: &Id, command: &Command) -> Option<bool>
    ensures { result ≡ open_by name.now command.now }
{
    match command {
        Command::ReelReceived { reel, .. } if *reel == *name => Some(false),
        Command::ReelOpened { reel } if *reel == *name => Some(true),
        Command::ReelSealed { reel } if *reel == *name => Some(false),
        Command::ReelBaked { reel } if *reel == *name => Some(false),
        Command::MaterialsLoaded { reel, .. } if *reel == *name => Some(true),
        Command::MaterialsSpliced { reel, .. } if *reel == *name => Some(true),
        _ => None,
    }
}

fn received_reel(name: &Id, entry: &Entry) -> Option<Reel>
    ensures { (H : History) → IsJudged Two (entry.now ∷ H) → receipt_of H name.now ≡ None
        → IsReelOf (entry.now ∷ H) name.now result }
{
    let at = entry.effective;
    let said = receipt_by(name, at, &entry.stamped.command)?;
    Some(Reel::receive(*name, said.part, said.lot, said.moisture, said.quantity, at))
}

fn handle(reel: &mut Reel, name: &Id, entry: &Entry)
    requires { reel.old.last ≤ entry.now.effective }
    ensures last { reel.new.last ≤ entry.now.effective }
    ensures stands { (H : History) → IsJudged Two (entry.now ∷ H) → StandsFor H name.now reel.old
        → StandsFor (entry.now ∷ H) name.now reel.new }
{
    let at = entry.effective;
    match open_by(name, &entry.stamped.command) {
        Some(true) => reel.open(at),
        Some(false) if is_bake(&entry.stamped.command) => reel.bake(at),
        Some(false) => reel.seal(at),
        None => reel.stays(),
    }
}

fn is_bake(command: &Command) -> bool
    ensures { result ≡ is_bake command.now }
{
    matches!(command, Command::ReelBaked { .. })
}

pub fn reel_after(reel: Option<Reel>, name: &Id, entry: &Entry) -> Option<Reel>
    // Minutes of one reel never fall, so no time is taken off twice.
    requires { ForSome reel (λ r. r.last ≤ entry.now.effective) }
    ensures { (H : History) → IsJudged Two (entry.now ∷ H) → IsReelOf H name.now reel
        → IsReelOf (entry.now ∷ H) name.now result }
{
    let Some(mut found) = reel else {
        return received_reel(name, entry);
    };
    handle(&mut found, name, entry);
    Some(found)
}

/// Returns the reel, or none if it wasn't received. Takes no memory.
pub fn reel_of(entries: &[Entry], name: &Id) -> Option<Reel>
    // In a judged history minutes never fall, and pieces add up.
    requires { IsJudged Two (reverse entries.now) }
    ensures { IsReelOf (reverse entries.now) name.now result }
{
    let mut reel = None;
    for entry in entries {
        reel = reel_after(reel, name, entry);
    }
    reel
}
