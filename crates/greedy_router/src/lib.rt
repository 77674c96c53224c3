//! A router: a serial list of actions that performs a circuit on a trap with room.
#![tactic(auto)]

mod choice;
mod has_room;
mod homes;
mod job;
mod laws;
mod map;
mod played;
mod router;
mod traffic;
mod travel;

pub use has_room::{RoomFault, room};
pub use laws::one_answer_about_room;
pub use router::serial;
