//! The parameters of queries.

ghost use Rattle.std.specs.Prelude.{◌≡◌};
ghost use Rattle.gateway_http.specs.Parameter.{parameter_text};

/// A parameter that some route reads.
#[derive(Clone, Copy, PartialEq, Eq)]
pub enum Parameter {
    /// The UniqueID of the import's command.
    Id,
    /// The sender of the file.
    Source,
    /// The time by the sender's clock.
    Time,
    Product,
    Machine,
    Board,
    Lot,
    Detail,
    Reel,
    Boards,
    /// The number of an entry of the book.
    After,
}

impl Parameter {
    /// Returns the parameter's name in a query.
    pub fn as_str(self) -> &'static str
        ensures { result.now ≡ parameter_text self }
    {
        match self {
            Parameter::Id => "id",
            Parameter::Source => "source",
            Parameter::Time => "time",
            Parameter::Product => "product",
            Parameter::Machine => "machine",
            Parameter::Board => "board",
            Parameter::Lot => "lot",
            Parameter::Detail => "detail",
            Parameter::Reel => "reel",
            Parameter::Boards => "boards",
            Parameter::After => "after",
        }
    }
}
