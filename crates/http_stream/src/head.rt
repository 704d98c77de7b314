//! The head of a request, with the length of its body and the end of its connection.

ghost use Rattle.std.specs.Prelude.{true, ◌≡◌, ◌<◌, ◌≤◌, ◌==◌, ℕ, List, All, map, take, length, drop, min, slice_range, codes, ◌+◌};
ghost use Rattle.std.specs.Str.{str_eq_ignore_ascii_case};
ghost use Rattle.std.specs.Str.Parse.{digits_value};
ghost use Rattle.std.specs.List.{list_any, list_all};
ghost use Rattle.std.specs.Char.{is_ascii_digit};
ghost use Rattle.httparse.specs.Grammar.{RequestHead, is_ows, trim_ows};
ghost use Rattle.httparse.specs.Spans.{IsHeaderWithin, IsWithin, header_bytes, span_bytes, IsRequestAt};
ghost use Rattle.http_stream.specs.Heads.{IsBadHead, IsUnfinished, values_of, is_length, length_in, body_length, has_close, closes};
ghost use Rattle.http_stream.specs.Looks.{IsHeadOf, HasValues, after_header, closes_by};

use desk_types::{LONGEST_INPUT, MOST_HEADERS};
use httparse::Status;
use httparse::spans::{EMPTY_HEADER_SPAN, HeaderSpan, Span, parse_request};

/// Why a body can't be read.
#[derive(Clone, Copy, PartialEq, Eq, Drop)]
pub enum LengthFault {
    /// There is a Transfer-Encoding, or a POST has no Content-Length.
    LengthRequired,
    /// There are several Content-Lengths, or the value isn't 1 to 19 digits.
    BadLength,
    /// The body is over the limit.
    BodyTooLarge,
}

/// The stored parts of a head. Places count from its first byte.
#[derive(Clone, Copy, Drop)]
pub struct Head {
    pub len: usize,
    pub method: Span,
    pub target: Span,
    /// The number of bytes of its body, or why it can't be read.
    pub body: Result<usize, LengthFault>,
    /// Whether the connection ends after its answer.
    pub closes: bool,
}

/// The result of searching the available bytes.
#[derive(Drop)]
pub enum Glance {
    Head(Head),
    /// No whole head yet, but more bytes might complete one.
    Unfinished,
    /// No head can start like this, or it has too many header lines.
    Bad,
}

/// The values under a name.
#[derive(Clone, Copy, Drop)]
pub enum Values {
    None,
    One(Span),
    More,
}

/// Searches for a head at the start of the bytes. Copies no bytes and takes no memory.
pub fn look(bytes: &[u8]) -> Glance
    ensures head { (head : _) → result ≡ Glance.Head head
        → (h : RequestHead) × IsHeadOf bytes.now head h }
    ensures unfinished { result ≡ Glance.Unfinished → IsUnfinished bytes.now }
    // So a head is refused only if no further bytes could make it one that is served.
    ensures bad { result ≡ Glance.Bad → IsBadHead bytes.now }
{
    let mut spans = [EMPTY_HEADER_SPAN; MOST_HEADERS];
    match parse_request(bytes, &mut spans) {
        Ok(Status::Complete(head)) => {
            let headers = &spans[..head.headers];
            let body = body_length(bytes, head.method.of(bytes), headers);
            let closes = head.version == 0 || any_close(bytes, headers);
            Glance::Head(Head {
                len: head.len,
                method: head.method,
                target: head.path,
                body,
                closes,
            })
        }
        Ok(Status::Partial) => Glance::Unfinished,
        Err(_) => Glance::Bad,
    }
}

fn body_length(bytes: &[u8], method: &[u8], headers: &[HeaderSpan]) -> Result<usize, LengthFault>
    requires within { All (IsHeaderWithin (length bytes.now)) headers.now }
    ensures { result ≡ body_length method.now (map (header_bytes bytes.now) headers.now) }
{
    let Values::None = values_of(bytes, headers, b"Transfer-Encoding") else {
        return Err(LengthFault::LengthRequired);
    };
    match values_of(bytes, headers, b"Content-Length") {
        Values::None if method == b"POST".as_slice() => Err(LengthFault::LengthRequired),
        Values::None => Ok(0),
        Values::One(value) => length_in(value.of(bytes)),
        Values::More => Err(LengthFault::BadLength),
    }
}

fn values_of(bytes: &[u8], headers: &[HeaderSpan], name: &[u8]) -> Values
    requires within { All (IsHeaderWithin (length bytes.now)) headers.now }
    ensures { HasValues bytes.now result
        (values_of name.now (map (header_bytes bytes.now) headers.now)) }
{
    let mut found = Values::None;
    for header in headers {
        found = next_values(bytes, found, header, name);
    }
    found
}

fn next_values(bytes: &[u8], found: Values, header: &HeaderSpan, name: &[u8]) -> Values
    requires within { IsHeaderWithin (length bytes.now) header.now }
    ensures { (vs : List (List ℕ)) → HasValues bytes.now found vs
        → HasValues bytes.now result
        (after_header name.now vs (header_bytes bytes.now header.now)) }
{
    if is_name(header.name.of(bytes), name) {
        match found {
            Values::None => Values::One(header.value),
            Values::One(_) => Values::More,
            Values::More => Values::More,
        }
    } else {
        found
    }
}

/// Returns whether the names are equal, ignoring case.
fn is_name(a: &[u8], b: &[u8]) -> bool
    ensures { result ≡ str_eq_ignore_ascii_case a.now b.now }
{
    a.eq_ignore_ascii_case(b)
}

fn length_in(value: &[u8]) -> Result<usize, LengthFault>
    ensures { result ≡ length_in value.now }
{
    if !is_length(value) {
        return Err(LengthFault::BadLength);
    }
    let length = capped_value(value);
    if length > LONGEST_INPUT {
        Err(LengthFault::BodyTooLarge)
    } else {
        Ok(length)
    }
}

fn is_length(value: &[u8]) -> bool
    ensures test { result ≡ is_length value.now }
    ensures digits { result ≡ true → All (λ b. (48 ≤ b) × (b ≤ 57)) value.now }
{
    !value.is_empty() && value.len() <= 19 && all_digits(value)
}

fn all_digits(value: &[u8]) -> bool
    ensures test { result ≡ list_all is_ascii_digit value.now }
    ensures digits { result ≡ true → All (λ b. (48 ≤ b) × (b ≤ 57)) value.now }
{
    value.iter().all(|b| b.is_ascii_digit())
}

/// Returns the number in the digits, at most one over the longest body, so it can't overflow.
fn capped_value(digits: &[u8]) -> usize
    requires digits { All (λ b. (48 ≤ b) × (b ≤ 57)) digits.now }
    ensures { result ≡ min (digits_value 10 digits.now) (LONGEST_INPUT + 1) }
{
    let mut value: usize = 0;
    for digit in digits {
        value = (value * 10 + usize::from(*digit - b'0')).min(LONGEST_INPUT + 1);
    }
    value
}

fn any_close(bytes: &[u8], headers: &[HeaderSpan]) -> bool
    requires within { All (IsHeaderWithin (length bytes.now)) headers.now }
    ensures { result ≡ list_any has_close
        (values_of (codes "Connection") (map (header_bytes bytes.now) headers.now)) }
{
    let mut any = false;
    for header in headers {
        any |= closes_by(bytes, header);
    }
    any
}

fn closes_by(bytes: &[u8], header: &HeaderSpan) -> bool
    requires within { IsHeaderWithin (length bytes.now) header.now }
    ensures { result ≡ closes_by (header_bytes bytes.now header.now) }
{
    is_name(header.name.of(bytes), b"Connection") && has_close(header.value.of(bytes))
}

fn has_close(value: &[u8]) -> bool
    ensures { result ≡ has_close value.now }
{
    value
        .split(|b| *b == b',')
        .any(|part| is_name(trim_ows(part), b"close"))
}

fn trim_ows(part: &[u8]) -> &[u8]
    ensures { result.now ≡ trim_ows part.now }
{
    trim(part, 0, part.len()).of(part)
}

fn trim(buf: &[u8], mut start: usize, mut end: usize) -> Span
    requires ordered { start ≤ end }
    requires in_range { end ≤ length buf.now }
    ensures within { IsWithin end result }
    ensures value { span_bytes buf.now result ≡ trim_ows (slice_range buf.now start end) }
{
    while start < end && is_blank(buf[start]) {
        start += 1;
    }
    while start < end && is_blank(buf[end - 1]) {
        end -= 1;
    }
    Span { start, end }
}

fn is_blank(b: u8) -> bool
    ensures { result ≡ is_ows b }
{
    b == b' ' || b == b'\t'
}
