//! Answers to requests that can't be read.

ghost use Rattle.std.specs.Prelude.{◌≡◌, IfOk, false};
ghost use Rattle.serde_json.specs.View.{view};
ghost use Rattle.serde_json.specs.Written.{compact_text, has_float};
ghost use Rattle.gateway_http.specs.Answer.{fault_answer, fault_text};

use crate::fault::AskFault;
use desk_types::{Listing, Text};
use serde_json::{Value, json};
use std::alloc::{AllocError, Global};

impl AskFault {
    /// Returns the text of the answer to the fault, such as
    /// `{"Answer":"Faulty","Fault":"BadQuery","Member":"detail"}`.
    #[tactic(auto, unfolding(crate::specs::Answer::fault_text))]
    pub fn write_text(&self, alloc: Global) -> Result<Text, AllocError>
        ensures { IfOk result (λ text. text ≡ fault_text self.now) }
    {
        let answer = self.answer(alloc)?;
        Ok(Listing::new(answer.to_string(alloc)?.into_bytes()))
    }

    fn answer(&self, alloc: Global) -> Result<Value, AllocError>
        ensures value { IfOk result (λ answer. view answer ≡ fault_answer self.now) }
        ensures whole { IfOk result (λ answer. has_float (view answer) ≡ false) }
    {
        match self {
            AskFault::NoPath => json!(in alloc; {"Answer": "NotFound", "Kind": "Path"}),
            AskFault::BadMethod(_) => json!(in alloc; {"Answer": "Faulty", "Fault": "BadMethod"}),
            AskFault::BadQuery(parameter) => {
                let name = parameter.as_str();
                json!(in alloc; {"Answer": "Faulty", "Fault": "BadQuery", "Member": name})
            }
            AskFault::NoMemory => json!(in alloc; {"Answer": "Unavailable"}),
        }
    }
}
