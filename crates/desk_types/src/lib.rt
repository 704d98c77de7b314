//! The shared types of the trace desk: commands and their stored texts, the history, refusals, replies
//! and the desk itself.
//!
//! The definitions are in `specs/`, one file for each topic. `docs/definitions.md` introduces them.
#![tactic(auto)]

mod answer;
mod boards;
mod change;
mod command;
mod count;
mod designator;
mod desk;
mod edit;
mod fixed;
mod front;
mod id;
mod level;
mod limits;
mod list;
mod number;
mod placement;
mod range;
mod row;
mod rules;
mod sheet;
mod stored_command;
mod stored_composed;
mod stored_fields;
mod stored_law;
mod stored_number;
mod stored_reading;
mod stored_value;
mod stored_word;
mod stored_writing;
mod take;
mod trace_detail;
mod view;
mod wire;

pub use answer::{Detail, Refusal, Replies, Reply};
pub use boards::Boards;
pub use change::{Change, Takes};
pub use command::{Command, Entry, Receipt, Stamped};
pub use count::{CountRow, Counts};
pub use designator::Designator;
pub use desk::{Desk, JudgeFault, run};
pub use edit::{RowEdit, RowEdits};
pub use front::{Front, FrontReel, Fronts, Life};
pub use id::Id;
pub use level::{Level, Moisture};
pub use limits::{
    BLOCK, FURTHEST_AHEAD, GREATEST_LABEL, GREATEST_MINUTE, GREATEST_QUANTITY, HEAD_LIMIT,
    LONGEST_DESIGNATOR, LONGEST_ID, LONGEST_INPUT, LONGEST_LIST, MOST_BOARDS, MOST_CONNECTIONS,
    MOST_DIGITS, MOST_ENTRIES, MOST_HEADERS, MOST_PORT, MOST_READS, ONE_WRITE, PAGE_SIZE,
    limits_fit_one_another, limits_have_their_numbers,
};
pub use list::{Bounded, IdList, Listing, Text};
pub use number::{CountedQuantity, Minute, Quantity};
pub use placement::Placement;
pub use row::{BoardRow, MountRow, PlacementRow, ReelRow};
pub use rules::Rules;
pub use sheet::{Designators, SheetRow, SheetRows};
pub use stored_law::texts_tell_commands_apart;
pub use stored_word::Word;
pub use take::{Pick, Purpose, Take};
pub use trace_detail::TraceDetail;
pub use view::{Left, Mount, Mounts, ReelView, ReelViews};
pub use wire::Wire;
