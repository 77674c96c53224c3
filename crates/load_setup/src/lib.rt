//! The trap and the circuits of a load: a large setting that a seed determines.
#![tactic(auto)]

mod circuit;
mod laws;
mod setup;
mod trap;
mod words;

pub use circuit::GATES;
pub use laws::{first_word, loads_are_sound, loads_have_room, zones_are_able};
pub use setup::generate;
pub use words::Words;
