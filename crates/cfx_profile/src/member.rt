//! The members that are read.

ghost use Rattle.std.specs.Prelude.{◌≡◌};
ghost use Rattle.cfx_profile.specs.Member.{member_text};

/// A member of an envelope, of a body or of a row in a body.
#[derive(Clone, Copy, PartialEq, Eq)]
pub enum Member {
    /// Envelope: the kind of message.
    MessageName,
    /// Envelope: the id of this message.
    UniqueId,
    /// Envelope: the sender.
    Source,
    /// Envelope: the time by the sender's clock.
    TimeStamp,
    /// Envelope: the content.
    MessageBody,
    PartNumber,
    Alternate,
    Product,
    Machine,
    Rows,
    Slot,
    Designators,
    Reel,
    Lot,
    Level,
    Quantity,
    LabelMinutes,
    Board,
    Counts,
}

impl Member {
    /// Returns the member's key.
    pub fn as_str(self) -> &'static str
        ensures { result.now ≡ member_text self }
    {
        match self {
            Member::MessageName => "MessageName",
            Member::UniqueId => "UniqueID",
            Member::Source => "Source",
            Member::TimeStamp => "TimeStamp",
            Member::MessageBody => "MessageBody",
            Member::PartNumber => "PartNumber",
            Member::Alternate => "Alternate",
            Member::Product => "Product",
            Member::Machine => "Machine",
            Member::Rows => "Rows",
            Member::Slot => "Slot",
            Member::Designators => "Designators",
            Member::Reel => "Reel",
            Member::Lot => "Lot",
            Member::Level => "Level",
            Member::Quantity => "Quantity",
            Member::LabelMinutes => "LabelMinutes",
            Member::Board => "Board",
            Member::Counts => "Counts",
        }
    }
}
