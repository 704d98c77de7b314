//! Single facts of the floor, each found by one look-up or two, with no memory taken.

ghost use Rattle.std.specs.Prelude.{◌≡◌, length, slice_get};
ghost use Rattle.feeder_state.specs.Tape.{tape_at};

use crate::floor::Floor;
use desk_types::Id;

impl Floor {
    /// How many live reels the slot has.
    pub fn reel_count(&self, machine: &Id, slot: &Id) -> usize
        ensures { result ≡ length (tape_at self.now.tapes machine.now slot.now) }
    {
        match self.tapes.get(&(*machine, *slot)) {
            Some(tape) => tape.reels.len(),
            None => 0,
        }
    }

    /// Returns the live reel of the slot at this index. The front has index 0.
    pub fn reel_at(&self, machine: &Id, slot: &Id, index: usize) -> Option<Id>
        ensures { result ≡ slice_get (tape_at self.now.tapes machine.now slot.now) index }
    {
        let tape = self.tapes.get(&(*machine, *slot))?;
        match tape.reels.get(index) {
            Some(name) => Some(*name),
            None => None,
        }
    }
}
