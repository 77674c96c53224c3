//! Chains of ions, and how ions pass from one into another.
#![tactic(auto)]

mod chain;
mod laws;
mod transfer;

pub use chain::Chain;
pub use laws::{
    nothing_lost, passing_back, passing_in_parts, passing_rule, passing_through, transfer_between,
    transfers_in_either_order,
};
pub use transfer::Transfer;
