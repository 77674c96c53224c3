//! The encoding of schedules in clauses: what its variables say and how they are numbered, and the clauses of
//! each part.
#![tactic(auto)]

mod abilities;
mod cells;
mod channel_test;
mod encoding;
mod helpers;
mod item;
mod laws;
mod sizes;
mod tables;
mod vars;

pub use abilities::is_able;
pub use cells::{Cell, Cells};
pub use channel_test::{ChannelTest, NumberedChannel};
pub use encoding::Encoding;
pub use item::{Bound, Claim, Item};
pub use laws::{
    helpers_are_in_their_part, helpers_are_no_items, items_have_numbers, numbers_differ,
    parts_are_in_order, steps_have_equal_helpers,
};
pub use vars::Vars;
