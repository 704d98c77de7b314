//! Writing answers.

ghost use Rattle.std.specs.Prelude.{◌≡◌, ◌<◌, ◌≤◌, ◌+◌, ◌^◌, ◌++◌, take, length, OnOk, OnErr};
ghost use Rattle.std.specs.Io.KnownBytes.{Appends};
ghost use Rattle.desk_types.specs.Wire.{inner_of, failures_of};
ghost use Rattle.desk_answers.specs.Sent.{SendsFront};
ghost use Rattle.http_stream.specs.Answers.{type_line, allow_line, close_line, head_bytes, reply_told, answer_bytes};

use crate::reply::HttpReply;
use crate::response::{Allow, MediaType, Status};
use desk_answers::{WriteFailed, send};
use desk_types::{ONE_WRITE, Wire};
use itoa::Buffer;
use std::io::Write;

/// The bytes of an answer so far.
#[derive(Drop)]
struct Letter {
    block: [u8; ONE_WRITE],
    end: usize,
}

/// Writes an answer. A body that isn't sent still counts in its length. Takes no memory.
#[tactic(auto, unfolding(crate::specs::Answers::answer_bytes))]
pub fn send_answer<W: Write>(
    wire: &mut Wire<W>,
    reply: &HttpReply,
    closes: bool,
    has_body: bool,
) -> Result<(), WriteFailed>
    requires few_failures { failures_of wire.old < 2 ^ 63 }
    ensures ok { OnOk result
        (Appends (W.contents (inner_of wire.old)) (W.contents (inner_of wire.new))
        (answer_bytes closes has_body (reply_told reply.now))) }
    ensures kept { OnOk result (failures_of wire.new ≡ failures_of wire.old) }
    ensures failed { OnErr result (failures_of wire.new ≡ failures_of wire.old + 1) }
    // At most the beginning of the answer was sent, and it has no gap.
    ensures front { OnErr result
        (SendsFront (W.contents (inner_of wire.old)) (W.contents (inner_of wire.new))
        (answer_bytes closes has_body (reply_told reply.now))) }
{
    let mut letter = Letter::new();
    letter.put_head(reply, closes);
    letter.send_with(wire, reply.sent_body(has_body))
}

impl Letter {
    fn new() -> Letter
        ensures { result.end ≡ 0 }
    {
        Letter {
            block: [0; ONE_WRITE],
            end: 0,
        }
    }

    fn put(&mut self, text: &[u8])
        requires room { self.old.end + length text.now ≤ ONE_WRITE }
        ensures bytes { take self.new.end self.new.block
            ≡ take self.old.end self.old.block ++ text.now }
        ensures end { self.new.end ≡ self.old.end + length text.now }
    {
        self.block[self.end..self.end + text.len()].copy_from_slice(text);
        self.end += text.len();
    }

    fn put_head(&mut self, reply: &HttpReply, closes: bool)
        requires empty { self.old.end ≡ 0 }
        ensures bytes { take self.new.end self.new.block
            ≡ head_bytes closes (reply_told reply.now) }
        ensures short { self.new.end ≤ ONE_WRITE }
    {
        let mut digits = Buffer::new();
        self.put(reply.status().line().as_bytes());
        self.put(type_line(reply.kind()).as_bytes());
        self.put(b"Content-Length: ");
        self.put(digits.format(reply.body().len()).as_bytes());
        self.put(b"\r\n");
        self.put(allow_line(reply.status()).as_bytes());
        self.put(close_line(closes).as_bytes());
        self.put(b"\r\n");
    }

    /// Writes the buffer and a body, in one write if both fit, which gives most of the speed.
    fn send_with<W: Write>(&mut self, wire: &mut Wire<W>, body: &[u8]) -> Result<(), WriteFailed>
        requires short { self.old.end ≤ ONE_WRITE }
        requires few_failures { failures_of wire.old < 2 ^ 63 }
        ensures ok { OnOk result
            (Appends (W.contents (inner_of wire.old)) (W.contents (inner_of wire.new))
            (take self.old.end self.old.block ++ body.now)) }
        ensures kept { OnOk result (failures_of wire.new ≡ failures_of wire.old) }
        ensures failed { OnErr result (failures_of wire.new ≡ failures_of wire.old + 1) }
        ensures front { OnErr result
            (SendsFront (W.contents (inner_of wire.old)) (W.contents (inner_of wire.new))
            (take self.old.end self.old.block ++ body.now)) }
    {
        if body.len() <= ONE_WRITE - self.end {
            self.put(body);
            return send(wire, &self.block[..self.end]);
        }
        send(wire, &self.block[..self.end])?;
        send(wire, body)
    }
}

#[tactic(auto, unfolding(crate::specs::Answers::type_line))]
fn type_line(kind: MediaType) -> &'static str
    ensures line { result.now ≡ type_line kind }
    ensures short { length result.now ≤ 64 }
{
    match kind {
        MediaType::Json => "Content-Type: application/json\r\n",
        MediaType::Csv => "Content-Type: text/csv\r\n",
    }
}

#[tactic(auto, unfolding(crate::specs::Answers::allow_line))]
fn allow_line(status: Status) -> &'static str
    ensures line { result.now ≡ allow_line status }
    ensures short { length result.now ≤ 64 }
{
    match status {
        Status::MethodNotAllowed(Allow::Get) => "Allow: GET\r\n",
        Status::MethodNotAllowed(Allow::Post) => "Allow: POST\r\n",
        _ => "",
    }
}

#[tactic(auto, unfolding(crate::specs::Answers::close_line))]
fn close_line(closes: bool) -> &'static str
    ensures line { result.now ≡ close_line closes }
    ensures short { length result.now ≤ 64 }
{
    if closes { "Connection: close\r\n" } else { "" }
}
