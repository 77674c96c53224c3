//! What actions work on, and which of them conflict.

ghost use Rattle.std.specs.Prelude.{◌≡◌, IsTrue, ◌↔◌};
ghost use Rattle.step_rules.specs.Steps.{footprint as works_on, docked as docked_at};
ghost use Rattle.step_rules.specs.Tight.{Conflict, AreOrdered};
ghost use Rattle.step_rules.specs.Footprint.{spots, place_spots};

use crate::action::Action;
use crate::action_channel::channel_for;
use crate::spots::Footprint;
use circuit_core::{Circuit, forced};
use qc_base::{End, PlaceId};
use trap_model::Trap;

// The slot that the zone's end is joined with.
fn docked(trap: &Trap, zone: PlaceId, end: End) -> Option<PlaceId>
    ensures { place_spots result ≡ docked_at trap.now zone.0 end }
{
    let split = Action::Split {
        zone,
        end,
        count: 1,
    };
    match channel_for(trap, &split) {
        Some(channel) => Some(channel.to),
        None => None,
    }
}

/// What an action works on. It takes no memory.
pub fn footprint(trap: &Trap, action: &Action) -> Footprint
    ensures { spots result ≡ works_on trap.now action.now }
{
    match *action {
        Action::Split { zone, end, .. } => Footprint {
            first: zone,
            second: docked(trap, zone, end),
            junction: None,
        },
        Action::Merge { zone, end } => Footprint {
            first: zone,
            second: docked(trap, zone, end),
            junction: None,
        },
        Action::Move { from, to } => Footprint {
            first: from,
            second: Some(to),
            junction: None,
        },
        Action::Cross { junction, from, to } => Footprint {
            first: from,
            second: Some(to),
            junction: Some(junction),
        },
        Action::Swap { zone, .. } | Action::Op { zone, .. } => Footprint {
            first: zone,
            second: None,
            junction: None,
        },
    }
}

// Whether both are operations, of which one has to come before the other.
fn are_ordered(circuit: &Circuit, a: &Action, b: &Action) -> bool
    ensures { IsTrue result ↔ AreOrdered circuit.now a.now b.now }
{
    match (a, b) {
        (Action::Op { op: i, .. }, Action::Op { op: j, .. }) => {
            forced(circuit, *i, *j) || forced(circuit, *j, *i)
        }
        _ => false,
    }
}

/// Whether two actions work on one place or junction, or one has to come before the other. It takes no memory.
pub fn conflicts(trap: &Trap, circuit: &Circuit, a: &Action, b: &Action) -> bool
    ensures { IsTrue result ↔ Conflict trap.now circuit.now a.now b.now }
{
    footprint(trap, a).meets(&footprint(trap, b)) || are_ordered(circuit, a, b)
}
