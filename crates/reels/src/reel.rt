//! A reel's pieces and floor life, computed in constant time and without a clock.

ghost use Rattle.reels.specs.Fitting.{IsFitting};

use desk_types::{Id, Minute, Moisture, Quantity, ReelRow};

/// Why pieces left a reel.
#[derive(Clone, Copy, PartialEq, Eq)]
pub enum Usage {
    /// They were placed on boards.
    Placed,
    /// They were scrapped, or missing at a count.
    Scrapped,
}

/// The state of a reel after its commands.
///
/// - `row`: the reel's columns. The exposure in `used` counts up to `row.open_since`, or up to `last`
///   while the reel is in its bag.
/// - `found`: the received pieces that counts found.
/// - `last`: the minute of the last receipt, open, seal or bake, counted from 1970-01-01T00:00Z.
///
/// The idea of floor life comes from J-STD-033; the limits are this project's own profile. A label
/// is bounded so that adding the minutes left to a minute can't overflow.
#[derive(Clone, Copy, PartialEq, Eq)]
pub struct Reel {
    pub row: ReelRow,
    pub found: u64,
    pub last: Minute,
    ghost fits: { IsFitting row found last },
}

impl Reel {
    ghost use Rattle.std.specs.Prelude.{◌≡◌, ℕ, ◌+◌, ◌-◌, ◌≤◌, ◌<◌, ◌^◌, max, not, ◌&&◌, Some, true, ◌∷◌};
    ghost use Rattle.std.specs.Prelude.{IfSome};
    ghost use Rattle.desk_types.specs.declared.limits.TheConstants.{GREATEST_LABEL};
    ghost use Rattle.desk_types.specs.declared.command.Command.TheVariants.{ReelReceived, ReelSealed, ReelBaked};
    ghost use Rattle.desk_types.specs.declared.command.Entry.{Entry};
    ghost use Rattle.desk_types.specs.Id.{Name};
    ghost use Rattle.desk_types.specs.Row.{fresh_row, exposure_at, opened_row, sealed_row, baked_row, minutes_left_at, is_expired_at, is_unbaked_row};
    ghost use Rattle.desk_types.specs.History.{History};
    ghost use Rattle.desk_types.specs.FloorLife.{open_by, IsUntouched, exposure_of, minutes_left, is_expired, is_unbaked};
    ghost use Rattle.reels.specs.Reel.{StandsFor, taken_row, counted_row, risen_row};

    /// Returns a sealed reel received at this minute.
    pub fn receive(
        reel: Id,
        part: Id,
        lot: Id,
        moisture: Moisture,
        quantity: Quantity,
        at: Minute,
    ) -> Reel
        ensures row { result.row ≡ fresh_row reel
            (record {
              part = part;
              lot = lot;
              moisture = moisture;
              quantity = quantity;
              effective = at;
            }) }
        ensures found { result.found ≡ 0 }
        ensures last { result.last ≡ at }
        // The reel must be new: no command has received, opened, sealed, baked or mounted it.
        ensures stands { (H : History) (e : Entry) → IsUntouched H reel
            → e.stamped.command ≡ ReelReceived reel part lot moisture quantity
            → e.effective ≡ at → StandsFor (e ∷ H) reel result }
    {
        let _ = moisture.label();
        Reel {
            row: ReelRow::fresh(reel, part, lot, moisture, quantity),
            found: 0,
            last: at,
        }
    }

    /// Takes the reel out of its bag. A reel that is out already stays so.
    pub fn open(&mut self, at: Minute)
        // The desk's minutes never go back, so no command comes before the reel's last one.
        requires { self.old.last ≤ at }
        ensures row { self.new.row ≡ opened_row at self.old.row }
        ensures found { self.new.found ≡ self.old.found }
        ensures last { self.new.last ≡ at }
        // A load and a splice take a reel out of its bag too.
        ensures stands { (H : History) (name : Name) (e : Entry) → StandsFor H name self.old
            → open_by name e.stamped.command ≡ Some true
            → e.effective ≡ at → StandsFor (e ∷ H) name self.new }
    {
        self.row = self.row.opened(at);
        self.last = at;
    }

    /// Seals the reel in its bag, which stops its exposure.
    pub fn seal(&mut self, at: Minute)
        requires { self.old.last ≤ at }
        ensures row { self.new.row ≡ sealed_row at self.old.row }
        ensures found { self.new.found ≡ self.old.found }
        ensures last { self.new.last ≡ at }
        ensures stands { (H : History) (name : Name) (e : Entry) → StandsFor H name self.old
            → e.stamped.command ≡ ReelSealed name
            → e.effective ≡ at → StandsFor (e ∷ H) name self.new }
    {
        let _ = at.get();
        self.row = self.row.sealed(at);
        self.last = at;
    }

    /// Bakes and seals the reel, which resets its exposure to 0.
    pub fn bake(&mut self, at: Minute)
        requires { self.old.last ≤ at }
        ensures row { self.new.row ≡ baked_row self.old.row }
        ensures found { self.new.found ≡ self.old.found }
        ensures last { self.new.last ≡ at }
        ensures stands { (H : History) (name : Name) (e : Entry) → StandsFor H name self.old
            → e.stamped.command ≡ ReelBaked name
            → e.effective ≡ at → StandsFor (e ∷ H) name self.new }
    {
        self.row = self.row.baked();
        self.last = at;
    }

    /// Returns how many minutes the reel was out of its bag before this one, since its last bake or
    /// its receipt.
    pub fn exposure(&self, at: Minute) -> u64
        requires { self.now.last ≤ at }
        ensures value { result ≡ exposure_at self.now.row at }
        // So exposures can't overflow: no reel is out for longer than since 1970.
        ensures bound { result ≤ at }
        ensures stands { (H : History) (name : Name) → StandsFor H name self.now
            → result ≡ exposure_of H name at }
    {
        let _ = at.get();
        self.row.exposure(at)
    }

    /// Returns the remaining minutes of floor life, 0 if expired, or none without a limit.
    pub fn minutes_left(&self, at: Minute) -> Option<u64>
        requires { self.now.last ≤ at }
        ensures value { result ≡ minutes_left_at self.now.row at }
        // So a minute and the minutes left can be added without an overflow.
        ensures bound { IfSome result (λ left. left ≤ GREATEST_LABEL) }
        ensures stands { (H : History) (name : Name) → StandsFor H name self.now
            → result ≡ minutes_left H name at }
    {
        self.row.minutes_left(at)
    }

    /// Returns whether the reel waits for its bake: it has level 6 and wasn't baked since its
    /// receipt.
    pub fn is_unbaked(&self) -> bool
        ensures value { result ≡ is_unbaked_row self.now.row }
        ensures stands { (H : History) (name : Name) → StandsFor H name self.now
            → result ≡ is_unbaked H name }
    {
        self.row.is_unbaked()
    }

    /// Returns whether the reel has expired by this minute.
    pub fn is_expired(&self, at: Minute) -> bool
        requires { self.now.last ≤ at }
        ensures value { result ≡ is_expired_at self.now.row at }
        ensures stands { (H : History) (name : Name) → StandsFor H name self.now
            → result ≡ is_expired H name at }
    {
        self.row.is_expired(at)
    }

    /// Returns whether the reel can be used at this minute: it is neither unbaked nor expired.
    pub fn usable(&self, at: Minute) -> bool
        requires { self.now.last ≤ at }
        ensures value { result
            ≡ (not (is_unbaked_row self.now.row) && not (is_expired_at self.now.row at)) }
        ensures stands { (H : History) (name : Name) → StandsFor H name self.now
            → result ≡ (not (is_unbaked H name) && not (is_expired H name at)) }
    {
        !self.is_unbaked() && !self.is_expired(at)
    }

    /// Takes pieces off the reel.
    pub fn take(&mut self, pieces: u64, usage: Usage)
        requires { pieces ≤ self.old.row.remaining }
        ensures row { self.new.row ≡ taken_row usage pieces self.old.row }
        ensures found { self.new.found ≡ self.old.found }
        ensures last { self.new.last ≡ self.old.last }
        // `StandsFor` leaves out placed and scrapped pieces, so the same history still fits.
        ensures stands { (H : History) (name : Name) → StandsFor H name self.old
            → StandsFor H name self.new }
    {
        // The received pieces fit their type, and so do the sums below.
        let _received = self.row.received;
        self.row.remaining -= pieces;
        match usage {
            Usage::Placed => self.row.placed += pieces,
            Usage::Scrapped => self.row.scrapped += pieces,
        }
    }

    /// Records a count. Missing pieces become scrapped.
    pub fn count(&mut self, pieces: u64)
        // A count above the pieces left is a `rise`.
        requires { pieces ≤ self.old.row.remaining }
        ensures row { self.new.row ≡ counted_row pieces self.old.row }
        ensures found { self.new.found ≡ self.old.found }
        ensures last { self.new.last ≡ self.old.last }
        ensures stands { (H : History) (name : Name) → StandsFor H name self.old
            → StandsFor H name self.new }
    {
        let missing = self.row.remaining - pieces;
        self.take(missing, Usage::Scrapped);
    }

    /// Records a count above the remaining pieces. The surplus becomes found and received pieces.
    pub fn rise(&mut self, pieces: u64)
        requires above { self.old.row.remaining < pieces }
        requires fits { self.old.row.received + (pieces - self.old.row.remaining) < 2 ^ 64 }
        ensures row { self.new.row ≡ risen_row pieces self.old.row }
        // Found pieces have no receipt, so they are counted apart from the receipt's.
        ensures found { self.new.found
            ≡ self.old.found + (pieces - self.old.row.remaining) }
        ensures last { self.new.last ≡ self.old.last }
        ensures stands { (H : History) (name : Name) → StandsFor H name self.old
            → StandsFor H name self.new }
    {
        let above = pieces - self.row.remaining;
        self.row.remaining = pieces;
        self.found += above;
        self.row.received += above;
    }

    /// A law: a command that doesn't concern the reel keeps it representing its history. It is for
    /// proofs and does nothing at run time.
    pub fn stays(&self)
        ensures { (H : History) (name : Name) (e : Entry) → StandsFor H name self.now
            → open_by name e.stamped.command ≡ None → StandsFor (e ∷ H) name self.now }
    {}
}
