//! Laws of the gateway's rule. They are for proofs and do nothing at run time.

ghost use Rattle.std.specs.Prelude.{◌≡◌, ℕ, List};
ghost use Rattle.desk_answers.specs.Ledger.{Ledger};
ghost use Rattle.http_stream.specs.Repeats.{LeavesState};
ghost use Rattle.gateway_http.specs.Repeats.{is_repeat, get_of};
ghost use Rattle.gateway_http.specs.Requests.{Reports, request_rule};

/// A message or file whose command was accepted before leaves the history unchanged. So the law of
/// `http_stream` that repeats act once applies to the gateway.
pub fn repeats_leave_the_list()
    ensures { (reports : Reports) → LeavesState (request_rule reports) is_repeat }
{}

/// A GET leaves the history unchanged.
pub fn questions_leave_the_list()
    // The GET is one without a body.
    ensures { (reports : Reports) (G : Ledger) (target : List ℕ)
        → (request_rule reports G (get_of target)).after ≡ G }
{}
