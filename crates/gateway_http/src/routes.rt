//! The routes.

ghost use Rattle.std.specs.Prelude.{◌≡◌, IfOk};
ghost use Rattle.gateway_http.specs.Routes.{method_text, route_method, route_of, table};

use matchit::{InsertError, Router};
use std::alloc::{AllocError, Global};

/// A method of a route.
#[derive(Clone, Copy, PartialEq, Eq)]
pub enum Method {
    Get,
    Post,
}

impl Method {
    /// Returns the method as written in a request.
    pub fn as_str(self) -> &'static str
        ensures { result.now ≡ method_text self }
    {
        match self {
            Method::Get => "GET",
            Method::Post => "POST",
        }
    }
}

#[derive(Clone, Copy, PartialEq, Eq)]
pub enum Route {
    Messages,
    ImportSetup,
    ImportCounts,
    TraceBoard,
    TraceLot,
    Reel,
    Slots,
    Kit,
    Overdue,
}

impl Route {
    /// Returns the only method of the route.
    pub fn method(self) -> Method
        ensures { result ≡ route_method self }
    {
        match self {
            Route::Messages | Route::ImportSetup | Route::ImportCounts => Method::Post,
            Route::TraceBoard
            | Route::TraceLot
            | Route::Reel
            | Route::Slots
            | Route::Kit
            | Route::Overdue => Method::Get,
        }
    }
}

/// The routes by path. Built once for any number of requests.
#[derive(Drop)]
pub struct RouteTable {
    router: Router<Route>,
    ghost routes: { router ≡ table },
}

impl RouteTable {
    /// Returns the table of all routes.
    pub fn new(alloc: Global) -> Result<RouteTable, AllocError> {
        match make_router(alloc) {
            Ok(router) => Ok(RouteTable { router }),
            Err(_) => Err(AllocError),
        }
    }

    /// Returns the route of a path, which may be any bytes.
    pub fn route_of(&self, path: &[u8]) -> Option<Route>
        // The whole path counts, byte by byte: with a slash at its end it is another one.
        ensures { result ≡ route_of path.now }
    {
        match str::from_utf8(path) {
            Ok(path) => find_route(&self.router, path),
            Err(_) => None,
        }
    }
}

fn make_router(alloc: Global) -> Result<Router<Route>, InsertError>
    ensures { IfOk result (λ router. router ≡ table) }
{
    let mut router = Router::new(alloc);
    router.insert("/messages", Route::Messages)?;
    router.insert("/imports/setup", Route::ImportSetup)?;
    router.insert("/imports/counts", Route::ImportCounts)?;
    router.insert("/trace/board", Route::TraceBoard)?;
    router.insert("/trace/lot", Route::TraceLot)?;
    router.insert("/reel", Route::Reel)?;
    router.insert("/slots", Route::Slots)?;
    router.insert("/kit", Route::Kit)?;
    router.insert("/overdue", Route::Overdue)?;
    Ok(router)
}

fn find_route(router: &Router<Route>, path: &str) -> Option<Route>
    requires { router.now ≡ table }
    ensures { result ≡ route_of path.now }
{
    match router.at(path) {
        Ok(found) => Some(*found.value),
        Err(_) => None,
    }
}
