//! How a run of the program ends: its answers, their exit statuses, and the lines that are written for them.
#![tactic(auto)]

mod answer;
mod circuit_lines;
mod exact_lines;
mod large;
mod line;
mod names;
mod piece;
mod place_lines;
mod room_lines;
mod schedule_lines;
mod trap_lines;

pub use answer::Answer;
pub use large::Large;
pub use line::Line;
pub use names::Names;
pub use piece::Piece;
pub use request_words::File;
