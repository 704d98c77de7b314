//! The answer to a portion: the handler's response, or a fault of the stream.

ghost use Rattle.std.specs.Prelude.{◌≡◌, [], if◌then◌else◌};
ghost use Rattle.http_stream.specs.Answers.{Told, reply_told};

use crate::head::LengthFault;
use crate::response::{MediaType, Response, Status};

/// The answer to a portion. The faults take no memory.
#[derive(Drop)]
pub enum HttpReply {
    Response(Response),
    BadHead,
    HeadTooLarge,
    Length(LengthFault),
}

impl HttpReply {
    /// Returns the status.
    pub fn status(&self) -> Status
        ensures { result ≡ (reply_told self.now).status }
    {
        match self {
            HttpReply::Response(response) => response.status,
            HttpReply::BadHead | HttpReply::Length(LengthFault::BadLength) => Status::BadRequest,
            HttpReply::HeadTooLarge => Status::HeaderFieldsTooLarge,
            HttpReply::Length(LengthFault::LengthRequired) => Status::LengthRequired,
            HttpReply::Length(LengthFault::BodyTooLarge) => Status::PayloadTooLarge,
        }
    }

    /// Returns the kind of the body.
    pub fn kind(&self) -> MediaType
        ensures { result ≡ (reply_told self.now).kind }
    {
        match self {
            HttpReply::Response(response) => response.kind,
            _ => MediaType::Json,
        }
    }

    /// Returns the body.
    pub fn body(&self) -> &[u8]
        ensures { result.now ≡ (reply_told self.now).body }
    {
        match self {
            HttpReply::Response(response) => response.body.as_slice(),
            HttpReply::BadHead => b"{\"Answer\":\"Faulty\",\"Fault\":\"BadHead\"}",
            HttpReply::HeadTooLarge => b"{\"Answer\":\"Faulty\",\"Fault\":\"HeadTooLarge\"}",
            HttpReply::Length(LengthFault::LengthRequired) => {
                b"{\"Answer\":\"Faulty\",\"Fault\":\"LengthRequired\"}"
            }
            HttpReply::Length(LengthFault::BadLength) => {
                b"{\"Answer\":\"Faulty\",\"Fault\":\"BadLength\"}"
            }
            HttpReply::Length(LengthFault::BodyTooLarge) => {
                b"{\"Answer\":\"Faulty\",\"Fault\":\"BodyTooLarge\"}"
            }
        }
    }

    /// Returns the body, or no bytes if none is sent.
    pub fn sent_body(&self, has_body: bool) -> &[u8]
        ensures { result.now ≡ (if has_body then (reply_told self.now).body else []) }
    {
        if has_body { self.body() } else { &[] }
    }
}
