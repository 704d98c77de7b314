//! Laws about the histories that a desk can reach: the consequences of the definitions, as
//! theorems. Nothing in this crate runs.
//!
//! Each law is a public function with an empty body; its contract states the law. Laws hold for
//! histories that either set of rules accepts, and so for every history that a desk represents.
//! Laws that hold for any history say so. The lemmas in `proofs/` are stated for rules Two, which
//! accept every history that rules One accept.
//!
//! The laws of `law.rt` are about a new desk that answers as the desk that it follows, and about a chain
//! of desk files.
#![tactic(auto)]

mod consistent;
mod desks;
mod law;
mod pieces;
mod placements;
mod runs;
mod searches;
mod slots;
mod time;
mod traces;

pub use consistent::judged_lists_are_consistent;
pub use desks::desk_is_consistent;
pub use law::{
    alike_desks_answer_alike, alike_desks_chain, chain_keeps_receipts, chain_pieces_balance,
    chain_recalls_agree,
};
pub use pieces::{
    counts_are_exact, mounted_reels_gain_nothing, nothing_is_found_by_rules_one, pieces_balance,
    scraps_are_whole, spent_stays_spent,
};
pub use placements::{
    installs_are_whole, no_designator_twice, only_verified_reels_are_placed, placements_are_final,
};
pub use runs::{accepted_under_both, rules_differ_in_counts_alone, run_in_parts};
pub use searches::searches_say_the_rule;
pub use slots::{one_place, tapes_keep_their_order};
pub use time::{
    desk_minute_never_falls, expired_reels_are_not_mounted, exposure_is_no_longer,
    exposure_never_falls, mounted_reels_are_out,
};
pub use traces::traces_are_converse;
