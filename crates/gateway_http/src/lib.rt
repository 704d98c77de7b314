//! The gateway over a line's store: messages, files and reports over HTTP.
//!
//! `http_stream` cuts the bytes of a connection into requests. `RouteTable` reads a request: its route,
//! from path and method, and the route's parameters. `message_answers` answers messages and files, for
//! any owner of a history, and `answers` adds the reports. `serve` serves a connection by a store that is
//! lent, and `ask` answers one question.
#![tactic(auto)]

mod answer;
mod answers;
mod asked;
mod fault;
mod gateway;
mod law;
mod message_answers;
mod parameter;
mod query;
mod reported;
mod routes;
mod statuses;
mod store;
mod values;

pub use answers::{answer_report, report_response};
pub use asked::{Asked, Report, check_method, cut_target, id_in, number_in};
pub use desk_answers::{ServeFault, Served};
pub use fault::AskFault;
pub use gateway::{Gateway, ask, make_missing, serve};
pub use http_stream::{Body, MediaType, Response, Status};
pub use law::{questions_leave_the_list, repeats_leave_the_list};
pub use line_schema::Unavailable;
pub use message_answers::{
    answer_fault, answer_import, answer_message, answer_response, csv, json,
};
pub use parameter::Parameter;
pub use query::value_of;
pub use reported::ReportedOwner;
pub use routes::{Method, RouteTable};
pub use statuses::verdict_status;
pub use store::report_of;
