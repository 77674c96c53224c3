//! Traps, circuits and lists of qubits that the tests of several crates use.
#![tactic(auto)]

mod circuits;
mod lists;
mod ops;
mod parts;
mod traps;

pub use circuits::circuit_of;
pub use lists::lists_of;
pub use ops::{barrier, cx, measure, reset, turn};
pub use parts::{ALL, join, segment, zone, zones_of};
pub use traps::{are_named, trap_of, zones_apart, zones_at_a_junction, zones_at_a_slot};
