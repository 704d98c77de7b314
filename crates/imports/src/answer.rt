//! Answers to rejected files.

ghost use Rattle.std.specs.Prelude.{◌≡◌, IfOk, false};
ghost use Rattle.serde_json.specs.View.{view};
ghost use Rattle.serde_json.specs.Written.{compact_text, has_float};
ghost use Rattle.cfx_profile.specs.Answer.{faulty};
ghost use Rattle.imports.specs.Answer.{faulty_row, faulty_field, fault_answer, fault_text};

use crate::fault::ImportFault;
use desk_types::{Listing, Text};
use serde_json::{Value, json};
use std::alloc::{AllocError, Global};

impl ImportFault {
    /// Returns the text of the answer, such as
    /// `{"Answer":"Faulty","Column":3,"Fault":"BadField","Line":2}`.
    #[tactic(auto, unfolding(crate::specs::Answer::fault_text))]
    pub fn write_text(&self, alloc: Global) -> Result<Text, AllocError>
        ensures { IfOk result (λ text. text ≡ fault_text self.now) }
    {
        let answer = self.answer(alloc)?;
        Ok(Listing::new(answer.to_string(alloc)?.into_bytes()))
    }

    fn answer(&self, alloc: Global) -> Result<Value, AllocError>
        ensures value { IfOk result (λ answer. view answer ≡ fault_answer self.now) }
        ensures whole { IfOk result (λ answer. has_float (view answer) ≡ false) }
    {
        match self {
            ImportFault::BadHeader => faulty(alloc, "BadHeader"),
            ImportFault::BadRow(line) => faulty_row(alloc, *line),
            ImportFault::BadField(line, column) => faulty_field(alloc, *line, *column),
            ImportFault::OverLimit => faulty(alloc, "OverLimit"),
            ImportFault::NoMemory => json!(in alloc; {"Answer": "Unavailable"}),
        }
    }
}

fn faulty(alloc: Global, fault: &str) -> Result<Value, AllocError>
    ensures { IfOk result (λ answer. view answer ≡ faulty fault.now) }
{
    json!(in alloc; {"Answer": "Faulty", "Fault": fault})
}

fn faulty_row(alloc: Global, line: u64) -> Result<Value, AllocError>
    ensures { IfOk result (λ answer. view answer ≡ faulty_row line) }
{
    json!(in alloc; {"Answer": "Faulty", "Fault": "BadRow", "Line": line})
}

fn faulty_field(alloc: Global, line: u64, column: u64) -> Result<Value, AllocError>
    ensures { IfOk result (λ answer. view answer ≡ faulty_field line column) }
{
    json!(in alloc; {"Answer": "Faulty", "Column": column, "Fault": "BadField", "Line": line})
}
