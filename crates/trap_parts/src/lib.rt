//! The parts of traps: zones, segments, junctions and joins, and which parts make a trap.
#![tactic(auto)]

mod fault;
mod judge;
mod labels;
mod laws;
mod names;
mod parts;
mod port;

pub use fault::{Counted, TrapFault};
pub use labels::{GivenLabels, Labels};
pub use laws::sound_parts_are_accepted;
pub use names::is_name;
pub use parts::{EndName, JoinPart, Need, SegmentPart, TrapParts, ZonePart};
pub use port::{Link, Port, SlotEnd, same_end};
