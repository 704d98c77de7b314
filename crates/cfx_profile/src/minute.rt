//! The minute of a time text.

ghost use Rattle.std.specs.Prelude.{◌≡◌, ◌≤◌, IfSome};
ghost use Rattle.jiff.specs.Words.{epoch_day};
ghost use Rattle.cfx_profile.specs.Minute.{minute_said, minute_of_nanos, minute_of_day};

use desk_types::Minute;
use jiff::Timestamp;
use jiff::civil::DateTime;

/// Why a time can't be read.
#[derive(Clone, Copy, PartialEq, Eq)]
pub enum MinuteFault {
    /// The text is not a time, or its time is before 1970.
    BadTime,
    /// There was too little memory. Reading a time takes none today, so this is not returned.
    NoMemory,
}

/// Reads a time in whole minutes since 1970-01-01T00:00Z, rounded down.
///
/// An instant has `Z` or an offset (RFC 3339, as read by `jiff`) and is at most
/// 9999-12-30T22:00:00.999999999Z. Any other text is a UTC date with an optional time of day, and
/// an offset or zone in it is dropped. An instant before 1970 is a fault and is not read as a date.
#[tactic(auto, unfolding(crate::specs::Minute::minute_said))]
pub fn read_minute(text: &str) -> Result<Minute, MinuteFault>
    ensures { result ≡ minute_said text.now }
{
    let minute = match text.parse::<Timestamp>() {
        Ok(instant) => instant_minute(instant),
        Err(_) => match text.parse::<DateTime>() {
            Ok(civil) => civil_minute(civil),
            Err(_) => None,
        },
    };
    minute.ok_or(MinuteFault::BadTime)
}

fn instant_minute(instant: Timestamp) -> Option<Minute>
    ensures { result ≡ minute_of_nanos instant.nanosecond }
{
    let nanos = instant.as_nanosecond();
    if nanos < 0 {
        return None;
    }
    Minute::new((nanos / 60_000_000_000) as u64)
}

fn civil_minute(civil: DateTime) -> Option<Minute>
    ensures { result ≡ minute_of_day (epoch_day civil.date) civil.time.hour civil.time.minute }
{
    let day = civil.date().to_plain().to_unix_epoch_day();
    if day < 0 {
        return None;
    }
    Minute::new(1440 * day as u64 + 60 * civil.hour() as u64 + civil.minute() as u64)
}
