//! Traces, cards and lists of a line's store, as CSV texts.
//!
//! `specs/Reports.antt` defines each report over the history. No report changes the history or its
//! tables. A report that needs the desk loads it first.
//!
//! The texts themselves are made from any desk or from placed pieces, with no store (`card`, `slots`,
//! `kit`, `trace_texts`). A trace has four details, after the idea of IPC-1782's levels: detail 4 has all
//! columns of a piece, lower ones have fewer.
#![tactic(auto)]

mod card;
mod fault;
mod kind;
mod kit;
mod laws;
mod lists;
mod records;
mod report;
mod shown;
mod slots;
mod text_laws;
mod trace_texts;
mod traces;

pub use desk_types::{Boards, TraceDetail};
pub use fault::ReportFault;
pub use kind::{Kind, not_found_text};
pub use kit::{KitRow, Supply};
pub use laws::reports_are_converse;
pub use lists::{kit_list, reel_card, slot_list};
pub use report::{CsvReport, TextWriter, csv_text, write_fields};
pub use text_laws::{
    no_reel_is_given_twice, reports_read_back, texts_read_back, traces_are_converse,
};
pub use trace_texts::{board_text, lot_text, overdue_text};
pub use traces::{board_trace, lot_trace, overdue_list};
