//! The content of a request to one of the line's own routes.

ghost use Rattle.gateway_http.specs.Fault.{IsAsked};
ghost use Rattle.line_http.specs.Asked.{asked_at, asked_by};

use crate::routes::Route;
use desk_types::Id;
use gateway_http::{AskFault, Parameter, check_method, id_in, number_in};
use line_answers::{Noted, Wanted};
use std::alloc::Global;

/// The content of a request, with its parameters.
#[derive(Clone, Copy, PartialEq, Eq)]
pub enum Asked {
    /// `POST /line/decisions`, `/line/holds` and `/line/releases`: the body says it.
    Say(Noted),
    /// `GET /line/state`: whether the machine may work.
    State(Id),
    /// `GET /line/book` and `/line/undecided`: these entries.
    Book(Wanted),
    /// `GET /line/counts`: how many commands and entries there are.
    Counts,
}

/// Reads a request to a route: its method, then its parameters.
#[tactic(auto, unfolding(crate::specs::Asked::asked_by))]
pub fn read_request(
    alloc: Global,
    route: Route,
    method: &[u8],
    query: &[u8],
) -> Result<Asked, AskFault>
    ensures { IsAsked (asked_by route method.now query.now) result }
{
    check_method(method, route.method())?;
    read_parameters(alloc, route, query)
}

#[tactic(auto, unfolding(crate::specs::Asked::asked_at))]
fn read_parameters(alloc: Global, route: Route, query: &[u8]) -> Result<Asked, AskFault>
    ensures { IsAsked (asked_at route query.now) result }
{
    match route {
        Route::Decisions => Ok(Asked::Say(Noted::Decided)),
        Route::Holds => Ok(Asked::Say(Noted::Held)),
        Route::Releases => Ok(Asked::Say(Noted::Released)),
        Route::State => {
            let machine = id_in(alloc, query, Parameter::Machine)?;
            Ok(Asked::State(machine))
        }
        Route::Book => {
            let number = number_in(alloc, query, Parameter::After)?;
            Ok(Asked::Book(Wanted::After(number)))
        }
        Route::Undecided => Ok(Asked::Book(Wanted::Undecided)),
        Route::Counts => Ok(Asked::Counts),
    }
}
