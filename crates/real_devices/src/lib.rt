//! The files of the system as a shelf, and a writer of the system as a sink.
#![tactic(auto)]

mod real;

pub use real::{RealShelf, RealSink};
