//! Floor life as reports show it.

ghost use Rattle.std.specs.Prelude.{◌≡◌};
ghost use Rattle.trace_reports.specs.Shown.{left_text};

use desk_types::Left;
use itoa::Buffer;

/// Returns the remaining floor life, with the digits of its minutes in the buffer.
pub fn left_text<'a>(left: Left, digits: &'a mut Buffer) -> &'a str
    ensures { result.now ≡ left_text left }
{
    match left {
        Left::Minutes(minutes) => digits.format(minutes),
        Left::Unlimited => "unlimited",
        Left::Unbaked => "unbaked",
    }
}
