//! The stages of a run before anything is put or written: files are read, and what a command asks for is
//! prepared.
#![tactic(auto)]

mod check;
mod compile;
mod ending;
mod exact;
mod inputs;
mod loading;
mod seeded;
mod verified;

pub use check::{Saying, judged};
pub use compile::planned;
pub use ending::Ending;
pub use exact::sought;
pub use inputs::Inputs;
pub use loading::{load, load_inputs};
pub use seeded::loaded;
pub use verified::verified_file;
