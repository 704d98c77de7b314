//! Short texts stored in an array of a fixed width.

ghost use Rattle.std.specs.Prelude.{◌≡◌, ◌≤◌, ◌+◌, ◌%◌, length};
ghost use Rattle.std.specs.Cmp.Lexicographic.{slice_cmp};
ghost use Rattle.std.specs.Ordering.{nat_cmp};
ghost use Rattle.desk_types.specs.Fixed.{with_zeros, word_at};

use std::cmp::Ordering;

/// Returns the bytes, padded with zeros up to the width.
pub fn with_zeros<const N: usize>(bytes: &[u8]) -> [u8; N]
    requires { length bytes.now ≤ N }
    ensures { result ≡ with_zeros N bytes.now }
{
    let mut own = [0u8; N];
    own[..bytes.len()].copy_from_slice(bytes);
    own
}

/// Compares two arrays of the same width by their bytes, eight at a time as one number.
pub fn order(a: &[u8], b: &[u8]) -> Ordering
    requires one_width { length a.now ≡ length b.now }
    // Eight bytes are read at once, and none is left over.
    requires whole_words { length a.now % 8 ≡ 0 }
    ensures { result ≡ slice_cmp nat_cmp a.now b.now }
{
    let mut at = 0;
    while at < a.len() {
        let (x, y) = (word(a, at), word(b, at));
        if x != y {
            return x.cmp(&y);
        }
        at += 8;
    }
    Ordering::Equal
}

/// Returns the big-endian number in the eight bytes at this place.
fn word(bytes: &[u8], at: usize) -> u64
    requires { at + 8 ≤ length bytes.now }
    ensures { result ≡ word_at bytes.now at }
{
    u64::from_be_bytes([
        bytes[at],
        bytes[at + 1],
        bytes[at + 2],
        bytes[at + 3],
        bytes[at + 4],
        bytes[at + 5],
        bytes[at + 6],
        bytes[at + 7],
    ])
}
