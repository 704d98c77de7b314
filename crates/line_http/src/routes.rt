//! The line's own routes.

ghost use Rattle.std.specs.Prelude.{◌≡◌};
ghost use Rattle.line_http.specs.Routes.{route_method, route_of};

use gateway_http::Method;

/// A route of the line's own.
#[derive(Clone, Copy, PartialEq, Eq)]
pub enum Route {
    Decisions,
    Holds,
    Releases,
    State,
    Book,
    Undecided,
    Counts,
}

impl Route {
    /// Returns the only method of the route.
    pub fn method(self) -> Method
        ensures { result ≡ route_method self }
    {
        match self {
            Route::Decisions | Route::Holds | Route::Releases => Method::Post,
            Route::State | Route::Book | Route::Undecided | Route::Counts => Method::Get,
        }
    }
}

/// Returns the route of a path, which may be any bytes.
pub fn route_of(path: &[u8]) -> Option<Route>
    ensures { result ≡ route_of path.now }
{
    if path == "/line/decisions".as_bytes() {
        Some(Route::Decisions)
    } else if path == "/line/holds".as_bytes() {
        Some(Route::Holds)
    } else if path == "/line/releases".as_bytes() {
        Some(Route::Releases)
    } else if path == "/line/state".as_bytes() {
        Some(Route::State)
    } else if path == "/line/book".as_bytes() {
        Some(Route::Book)
    } else if path == "/line/undecided".as_bytes() {
        Some(Route::Undecided)
    } else if path == "/line/counts".as_bytes() {
        Some(Route::Counts)
    } else {
        None
    }
}
