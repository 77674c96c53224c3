//! The text of a schedule, printed and read.
#![tactic(auto)]

mod action_line;
mod body_line;
mod laws;
mod open;
mod place_line;
mod printer;
mod reader;
mod text_fault;
mod words;

pub use laws::{one_text, small_schedules_have_short_texts};
pub use printer::print;
pub use reader::read;
pub use text_fault::TextFault;
