//! A log of a derivation by resolution, and the text of its certificate.
#![tactic(auto)]

mod derived_lines;
mod from_text;
mod laws;
mod line_id;
mod lines_fault;
mod log;
mod printer;
mod words;

pub use laws::{first_lines_are_derived, first_lines_are_good, good_lines_are_read_back};
pub use line_id::LineId;
pub use lines_fault::LinesFault;
pub use log::Log;
pub use printer::Printer;
