//! Which operations of a circuit are ready to be performed.
#![tactic(auto)]

mod after;
mod laws;
mod progress;
mod ready_ops;

pub use laws::all_are_done_where_none_is_ready;
pub use ready_ops::Ready;
