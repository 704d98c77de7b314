//! The kinds of commands. A kind's text is the first field of a stored text, and the end of a message's name.

ghost use Rattle.std.specs.Prelude.{◌≡◌, find, option_map, IfSome, IfNone};
ghost use Rattle.desk_types.specs.Id.{same};
ghost use Rattle.desk_types.specs.StoredText.{word_text};

/// The kind of command, in a stored text or a message.
#[derive(Clone, Copy, PartialEq, Eq)]
pub enum Word {
    PartDefined,
    AlternateAllowed,
    SheetDefined,
    ProductSelected,
    ReelReceived,
    ReelOpened,
    ReelSealed,
    ReelBaked,
    MaterialsLoaded,
    MaterialsSpliced,
    MaterialsUnloaded,
    WorkStarted,
    WorkCompleted,
    MaterialsInstalled,
    MaterialsScrapped,
    CountsTaken,
    ClockSet,
}

const WORDS: [Word; 17] = [
    Word::PartDefined,
    Word::AlternateAllowed,
    Word::SheetDefined,
    Word::ProductSelected,
    Word::ReelReceived,
    Word::ReelOpened,
    Word::ReelSealed,
    Word::ReelBaked,
    Word::MaterialsLoaded,
    Word::MaterialsSpliced,
    Word::MaterialsUnloaded,
    Word::WorkStarted,
    Word::WorkCompleted,
    Word::MaterialsInstalled,
    Word::MaterialsScrapped,
    Word::CountsTaken,
    Word::ClockSet,
];

impl Word {
    /// Returns the kind with this text, if there is one.
    pub fn read(text: &[u8]) -> Option<Word>
        ensures read { IfSome result (λ word. text.now ≡ word_text word) }
        // No word that was stored is refused, so a refusal is a proof of damage.
        ensures refused { IfNone result ((word : Word) → ¬ (text.now ≡ word_text word)) }
    {
        first_named(&WORDS, text).copied()
    }

    /// Returns the kind's text.
    #[tactic(auto, unfolding(crate::specs::StoredText::word_text))]
    pub fn as_str(self) -> &'static str
        ensures { result.now ≡ word_text self }
    {
        match self {
            Word::PartDefined => "PartDefined",
            Word::AlternateAllowed => "AlternateAllowed",
            Word::SheetDefined => "SheetDefined",
            Word::ProductSelected => "ProductSelected",
            Word::ReelReceived => "ReelReceived",
            Word::ReelOpened => "ReelOpened",
            Word::ReelSealed => "ReelSealed",
            Word::ReelBaked => "ReelBaked",
            Word::MaterialsLoaded => "MaterialsLoaded",
            Word::MaterialsSpliced => "MaterialsSpliced",
            Word::MaterialsUnloaded => "MaterialsUnloaded",
            Word::WorkStarted => "WorkStarted",
            Word::WorkCompleted => "WorkCompleted",
            Word::MaterialsInstalled => "MaterialsInstalled",
            Word::MaterialsScrapped => "MaterialsScrapped",
            Word::CountsTaken => "CountsTaken",
            Word::ClockSet => "ClockSet",
        }
    }
}

fn first_named<'a>(words: &'a [Word], text: &[u8]) -> Option<&'a Word>
    ensures { option_map (λ word. word.now) result ≡ find
        (λ word. same (word_text word) text.now) words.now }
{
    words.iter().find(|word| word.as_str().as_bytes() == text)
}
