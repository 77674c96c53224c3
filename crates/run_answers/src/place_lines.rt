//! What is said where a rule gives no placement.

ghost use Rattle.std.specs.Prelude.{◌≡◌};
ghost use Rattle.run_answers.specs.Names.{names_of};
ghost use Rattle.run_answers.specs.PlaceLines.{given_said, place_said};

use crate::line::Line;
use crate::names::Names;
use placement::PlaceFault;
use step_rules::GivenFault;

/// Lists of a trap's file that are no placement.
fn given_line<'a>(fault: &GivenFault, names: Names<'a>) -> Line<'a>
    ensures { result ≡ given_said (names_of names.entry) fault.now }
{
    match *fault {
        GivenFault::Repeated { qubit } => Line::start(b"placement: ")
            .label(names, qubit)
            .text(b" twice"),
        GivenFault::Full { zone } => Line::start(b"placement: zone ")
            .name(names.zone(zone))
            .text(b" full"),
        GivenFault::Missing { qubit } => Line::start(b"placement: ")
            .label(names, qubit)
            .text(b" missing"),
        GivenFault::NoMemory => Line::start(b"no memory"),
    }
}

/// A rule that gives no placement.
pub fn place_line<'a>(fault: &'a PlaceFault, names: Names<'a>) -> Line<'a>
    ensures { result ≡ place_said (names_of names.entry) fault.now }
{
    match fault {
        PlaceFault::TooManyQubits { qubits, room } => Line::start(b"placement: ")
            .number(*qubits)
            .text(b" qubits, room for ")
            .number(*room),
        PlaceFault::NoTable => Line::start(b"placement: no table"),
        PlaceFault::UnknownQubit { label, .. } => {
            Line::start(b"placement: unknown qubit ").name(label.bytes())
        }
        PlaceFault::Given(fault) => given_line(fault, names),
        PlaceFault::NoMemory => Line::start(b"no memory"),
    }
}
