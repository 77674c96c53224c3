//! Shortest paths through a trap: walks of channels, and distances.
#![tactic(auto)]

mod distances;
mod laws;
mod numbers;
mod reach;
mod routes;
mod search;

pub use distances::Distances;
pub use laws::walks_lead_back;
pub use reach::Reach;
pub use routes::{Route, route};
