//! Setup sheets: which parts may feed a slot, validation of a sheet, and verification of a
//! machine's setup.
#![tactic(auto)]

mod alternates;
mod look_ups;
mod parts;
mod rows;
mod sheet;
mod verification;

pub use alternates::{Alternates, allowed};
pub use look_ups::Sheet;
pub use parts::Parts;
pub use rows::{row_of, slot_of};
pub use sheet::{SheetFault, check_sheet};
pub use verification::verify;
