//! What is said where a trap has no room for a circuit.

ghost use Rattle.std.specs.Prelude.{◌≡◌};
ghost use Rattle.run_answers.specs.Names.{names_of};
ghost use Rattle.run_answers.specs.RoomLines.{room_said};

use crate::line::Line;
use crate::names::Names;
use greedy_router::RoomFault;

/// A trap without room for a circuit.
pub fn room_line<'a>(fault: &RoomFault, names: Names<'a>) -> Line<'a>
    ensures { result ≡ room_said (names_of names.entry) fault.now }
{
    match *fault {
        RoomFault::Tight { zone, free } => Line::start(b"zone ")
            .name(names.zone(zone))
            .text(b" has ")
            .number(free)
            .text(b" free"),
        RoomFault::Apart { zone } => Line::start(b"zone ")
            .name(names.zone(zone))
            .text(b" is apart"),
        RoomFault::NoAble { op } => Line::start(b"no zone for operation ").number(u64::from(op.0)),
        RoomFault::NoMemory => Line::start(b"no memory"),
    }
}
