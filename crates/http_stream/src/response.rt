//! The answer to a request.

ghost use Rattle.std.specs.Prelude.{◌≡◌, ◌≤◌, length};
ghost use Rattle.http_stream.specs.Answers.{code_of, is_refused, status_line, body_of, response_told, unavailable};

use desk_types::Text;

/// The status of an answer.
#[derive(Clone, Copy, PartialEq, Eq, Drop)]
pub enum Status {
    Ok,
    Accepted,
    BadRequest,
    NotFound,
    /// The path only allows this other method.
    MethodNotAllowed(Allow),
    Conflict,
    LengthRequired,
    PayloadTooLarge,
    UnprocessableEntity,
    HeaderFieldsTooLarge,
    ServiceUnavailable,
}

/// The one method that a path allows.
#[derive(Clone, Copy, PartialEq, Eq, Drop)]
pub enum Allow {
    Get,
    Post,
}

/// The media type of a body.
#[derive(Clone, Copy, PartialEq, Eq, Drop)]
pub enum MediaType {
    Json,
    Csv,
}

/// The body of an answer.
#[derive(Drop)]
pub enum Body {
    /// A text in allocated memory.
    Made(Text),
    /// The fixed text of the answer when out of memory.
    Fixed,
}

/// The answer to a request: a status, and a body with its kind.
#[derive(Drop)]
pub struct Response {
    pub status: Status,
    pub kind: MediaType,
    pub body: Body,
}

impl Response {
    /// Returns the answer when out of memory or after the storage failed. Takes no memory.
    pub fn unavailable() -> Response
        ensures { response_told result ≡ unavailable }
    {
        Response {
            status: Status::ServiceUnavailable,
            kind: MediaType::Json,
            body: Body::Fixed,
        }
    }
}

impl Body {
    /// Returns the bytes.
    pub fn as_slice(&self) -> &[u8]
        ensures { result.now ≡ body_of self.now }
    {
        match self {
            Body::Made(text) => text.as_slice(),
            Body::Fixed => b"{\"Answer\":\"Unavailable\"}",
        }
    }
}

impl Status {
    /// Returns the status code.
    pub fn code(self) -> u16
        ensures { result ≡ code_of self }
    {
        match self {
            Status::Ok => 200,
            Status::Accepted => 202,
            Status::BadRequest => 400,
            Status::NotFound => 404,
            Status::MethodNotAllowed(_) => 405,
            Status::Conflict => 409,
            Status::LengthRequired => 411,
            Status::PayloadTooLarge => 413,
            Status::UnprocessableEntity => 422,
            Status::HeaderFieldsTooLarge => 431,
            Status::ServiceUnavailable => 503,
        }
    }

    /// Returns whether the status counts as refused: all except 200 and 202 do.
    pub fn is_refused(self) -> bool
        ensures { result ≡ is_refused self }
    {
        !matches!(self, Status::Ok | Status::Accepted)
    }

    /// Returns the status line.
    pub fn line(self) -> &'static str
        ensures line { result.now ≡ status_line self }
        // `put_head` needs a bound of each line, so that a whole head fits into its block.
        ensures short { length result.now ≤ 64 }
    {
        match self {
            Status::Ok => "HTTP/1.1 200 OK\r\n",
            Status::Accepted => "HTTP/1.1 202 Accepted\r\n",
            Status::BadRequest => "HTTP/1.1 400 Bad Request\r\n",
            Status::NotFound => "HTTP/1.1 404 Not Found\r\n",
            Status::MethodNotAllowed(_) => "HTTP/1.1 405 Method Not Allowed\r\n",
            Status::Conflict => "HTTP/1.1 409 Conflict\r\n",
            Status::LengthRequired => "HTTP/1.1 411 Length Required\r\n",
            Status::PayloadTooLarge => "HTTP/1.1 413 Payload Too Large\r\n",
            Status::UnprocessableEntity => "HTTP/1.1 422 Unprocessable Entity\r\n",
            Status::HeaderFieldsTooLarge => "HTTP/1.1 431 Request Header Fields Too Large\r\n",
            Status::ServiceUnavailable => "HTTP/1.1 503 Service Unavailable\r\n",
        }
    }
}
