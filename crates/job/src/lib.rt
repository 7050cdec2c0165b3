// The run of a card, and what it reports.
#![tactic(auto)]

mod listing;
mod run;

pub use listing::{Answer, Line, Totals};
pub use run::run_entries;
