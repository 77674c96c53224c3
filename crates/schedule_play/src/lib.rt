//! Playing a schedule: whether each step is legal, and whether the circuit is performed.
#![tactic(auto)]

mod fault;
mod laws;
mod progress;
mod ready;
mod simulator;

pub use fault::PlayFault;
pub use laws::one_verdict;
pub use simulator::play;
