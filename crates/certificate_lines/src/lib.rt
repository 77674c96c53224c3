//! Reading and judging one line of a certificate.
#![tactic(auto)]

mod items;
mod judge;
mod line;

pub use items::{read_hints, read_literals};
pub use judge::{is_good, refutes};
pub use line::read_line;
