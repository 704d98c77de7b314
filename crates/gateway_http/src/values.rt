//! The numbers in requests.

ghost use Rattle.std.specs.Prelude.{◌≡◌, ◌≤◌};
ghost use Rattle.std.specs.Char.{is_ascii_digit};
ghost use Rattle.std.specs.List.{list_all};
ghost use Rattle.gateway_http.specs.Values.{is_numeral, number_of, detail_of, boards_of};

use desk_types::{Boards, TraceDetail};

/// Reads a detail level of one digit.
pub fn detail_of(text: &str) -> Option<TraceDetail>
    ensures { result ≡ detail_of text.now }
{
    let number = number_of(text, 1)?;
    TraceDetail::new(u8::try_from(number).ok()?)
}

/// Reads a number of boards of 1 to 6 digits.
pub fn boards_of(text: &str) -> Option<Boards>
    ensures { result ≡ boards_of text.now }
{
    Boards::new(u64::from(number_of(text, 6)?))
}

/// Reads a number of 1 to this many digits.
#[tactic(auto, unfolding(crate::specs::Values::number_of))]
pub fn number_of(text: &str, most_digits: usize) -> Option<u32>
    // Nine digits fit into 32 bits, so parsing a numeral can't fail.
    requires { most_digits ≤ 9 }
    ensures { result ≡ number_of most_digits text.now }
{
    if !is_numeral(text.as_bytes(), most_digits) {
        return None;
    }
    text.parse::<u32>().ok()
}

fn is_numeral(text: &[u8], most_digits: usize) -> bool
    ensures { result ≡ is_numeral most_digits text.now }
{
    !text.is_empty() && text.len() <= most_digits && are_digits(text)
}

fn are_digits(text: &[u8]) -> bool
    ensures { result ≡ list_all is_ascii_digit text.now }
{
    text.iter().all(|byte| byte.is_ascii_digit())
}
