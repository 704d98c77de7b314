//! An owner with reports.

use crate::asked::Report;
use desk_answers::Owner;
use desk_types::Text;
use line_schema::Unavailable;
use std::alloc::Global;

/// Answers commands and returns reports of those accepted.
pub trait ReportedOwner: Owner {
    ghost use Rattle.std.specs.Prelude.{◌≡◌, IfOk};
    ghost use Rattle.desk_answers.specs.Ledger.{Ledger};
    ghost use Rattle.gateway_http.specs.Requests.{Reports};

    /// The reports of a history.
    ghost reports: { Reports };

    /// Returns a report, or none if its subject isn't found. The history is unchanged.
    fn report(&mut self, alloc: Global, asked: Report) -> Result<Option<Text>, Unavailable>
        requires ready { Self.Ready self.old }
        ensures ready { Self.Ready self.new }
        ensures trusts { Self.Trusts self.new → Self.Trusts self.old }
        // A report depends on the history alone, whatever else the owner stores.
        ensures told { (G : Ledger) → Self.Stands self.old G → Self.Trusts self.new
            → IfOk result (λ text. text ≡ reports asked G.history) }
        ensures stands { (G : Ledger) → Self.Stands self.old G → Self.Trusts self.new
            → Self.Stands self.new G };
}
