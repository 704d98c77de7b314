//! A law of the routes. It is for proofs and does nothing at run time.

ghost use Rattle.std.specs.Prelude.{List, Option, Result, Some, ℕ};
ghost use Rattle.desk_answers.specs.declared.serving.ServeFault.{ServeFault};
ghost use Rattle.desk_answers.specs.declared.serving.Served.{Served};
ghost use Rattle.http_stream.specs.Stream.{AnswersConnection};
ghost use Rattle.gateway_http.specs.Reports.{report_of};
ghost use Rattle.gateway_http.specs.Requests.{request_rule};
ghost use Rattle.line_http.specs.Line.{Line};
ghost use Rattle.line_http.specs.OnlyDesk.{AskDesk};
ghost use Rattle.line_http.specs.Rule.{line_rule};

/// A connection that asks the desk alone gets the answers of `tracedesk serve`, by the same desk.
pub fn the_desk_is_served_alike()
    ensures { (input : List ℕ) (left sent all_sent : Option (List ℕ))
        (ended : Result Served ServeFault) (line after : Line) → AskDesk input
        → AnswersConnection line_rule (Some input) left sent all_sent ended line after
        → AnswersConnection (request_rule report_of) (Some input) left sent all_sent ended
        line.desk after.desk }
{}
