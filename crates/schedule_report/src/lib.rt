//! What is said of a schedule: counts, the lines of a check and of a load, and the report.
#![tactic(auto)]

mod counting;
mod laws;
mod lines;
mod printer;
mod tables;
mod tally;
mod totals;

pub use counting::counts;
pub use laws::{few_actions_are_counted_exactly, kinds_make_up_the_actions, no_step_performs_more};
pub use lines::{least_line, legal_line, load_lines};
pub use printer::report;
pub use tally::Tally;
pub use totals::Counts;
