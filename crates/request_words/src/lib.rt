//! What the words of a command line ask for, and which files such a request reads.
#![tactic(auto)]

mod file;
mod options;
mod request;

pub use file::File;
pub use placement::PlaceRule;
pub use request::{Exact, Request, request_of};
