//! The partial assignment of a solver in the order in which it was made, and the choice of the next decision.
#![tactic(auto)]

mod activity_heap;
mod pick;
mod recent;
mod status;
mod values;

pub use pick::Pick;
pub use recent::Recent;
pub use status::{Status, status_of};
pub use values::{Assigned, Values};
