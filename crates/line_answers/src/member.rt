//! The members that the line's own routes read.

ghost use Rattle.std.specs.Prelude.{◌≡◌};
ghost use Rattle.line_answers.specs.Fault.{member_text};

/// A member of a body.
#[derive(Clone, Copy, PartialEq, Eq)]
pub enum Member {
    Of,
    Became,
    By,
    Reason,
    Hold,
    Release,
    Name,
}

impl Member {
    /// Returns the member's key.
    pub fn as_str(self) -> &'static str
        ensures { result.now ≡ member_text self }
    {
        match self {
            Member::Of => "Of",
            Member::Became => "Became",
            Member::By => "By",
            Member::Reason => "Reason",
            Member::Hold => "Hold",
            Member::Release => "Release",
            Member::Name => "Name",
        }
    }
}
