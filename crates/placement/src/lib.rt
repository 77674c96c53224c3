//! Which zone begins with which qubits: the placement of a rule.
#![tactic(auto)]

mod fault;
mod filling;
mod first_use;
mod laws;
mod named;
mod placing;
mod rule;

pub use fault::PlaceFault;
pub use laws::{earlier_uses_come_first, rules_give_placements};
pub use placing::place;
pub use rule::PlaceRule;
