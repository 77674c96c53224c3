//! Actions between two zones that a junction joins, and lists that are no placement.

ghost use Rattle.std.specs.Prelude.{◌≡◌, ◌<◌, ◌^◌, length};
ghost use Rattle.step_rules.specs.Config.{IsConfigOf};
ghost use Rattle.step_rules.specs.Placement.{reading_order};

use crate::tests::actions::{cross, goes, merge, op, split, swap};
use crate::tests::places::{compare, placed};
use circuit_core::{Circuit, Qubits};
use qc_base::{End, Ion, JunctionId, PlaceId, Qubit};
use samples::{barrier, circuit_of, cx, lists_of, segment, zones_at_a_junction};
use std::alloc::Global;
use std::process::Abort;
use std::test::Fail;
use step_rules::{
    Action, Config, Footprint, GivenFault, Placement, Rule, Schedule, conflicts, enabled, footprint,
};
use trap_model::{Need, Trap};

// Zone A by segment s to junction J, and from there by segment t to zone B.
#[derive(Clone, Copy)]
struct Sketch {
    capacity: u32,
    // By which end s is joined with A.
    end: End,
    slots: u32,
    loads: (u32, u32),
}

fn trap_of(alloc: Global, sketch: &Sketch) -> Result<Trap, Fail> {
    let two = [Need::Two];
    let first = segment(alloc, b"s", sketch.slots, sketch.loads.0)?;
    let second = segment(alloc, b"t", 1, sketch.loads.1)?;
    let zones: [(u32, &[Need]); 2] = [(sketch.capacity, &two), (4, &two)];
    zones_at_a_junction(alloc, &zones, sketch.end, [first, second])
}

// Four qubits, of which the first two meet, and then a barrier on these two.
fn four_qubits(alloc: Global) -> Result<Circuit, Fail> {
    let wall = barrier(alloc, &[0, 1])?;
    circuit_of(alloc, 4, 0, Vec::from_array(alloc, [cx(0, 1), wall])?)
}

// Does the action where it passes its guards.
fn act(
    trap: &Trap,
    circuit: &Circuit,
    placement: &Placement,
    config: &mut Config,
    action: Action,
) -> Result<(), Rule>
    requires { IsConfigOf trap.now config.old }
    ensures { IsConfigOf trap.now config.new }
{
    enabled(trap, circuit, placement, config, &action)?;
    config.apply(trap, &action);
    Ok(())
}

// Does the actions, and compares their answers.
fn act_all(
    rt: &impl Abort,
    trap: &Trap,
    circuit: &Circuit,
    placement: &Placement,
    config: &mut Config,
    actions: &[(Action, Result<(), Rule>)],
)
    requires { IsConfigOf trap.now config.old }
    ensures { IsConfigOf trap.now config.new }
{
    for (action, answer) in actions {
        assert!(rt; act(trap, circuit, placement, config, *action) == *answer);
    }
}

// Plays actions, each with its answer, from the qubits of A and of B, and compares the lists of all places after them.
fn plays(
    rt: &impl Abort,
    alloc: Global,
    sketch: &Sketch,
    zones: (&[u32], &[u32]),
    actions: &[(Action, Result<(), Rule>)],
    places: &[&[u32]],
) -> Result<(), Fail> {
    let trap = trap_of(alloc, sketch)?;
    let circuit = four_qubits(alloc)?;
    let placement = placed(alloc, &trap, &circuit, &[zones.0, zones.1])?;
    let mut config = Config::start(alloc, &trap, &placement)?;
    act_all(rt, &trap, &circuit, &placement, &mut config, actions);
    compare(rt, &trap, &config, places);
    Ok(())
}

fn drawn(capacity: u32, end: End, slots: u32, loads: (u32, u32)) -> Sketch {
    Sketch {
        capacity,
        end,
        slots,
        loads,
    }
}

#[test]
fn splits_and_merges(rt: HostRuntime) -> Result<(), Fail> {
    let alloc = rt.alloc();
    let at_b = drawn(3, End::B, 1, (2, 2));
    plays(
        &rt,
        alloc,
        &at_b,
        (&[0, 1, 2], &[3]),
        &[(split(0, End::B, 2), Ok(()))],
        &[&[0], &[3], &[2, 1], &[]],
    )?;
    let at_a = drawn(3, End::A, 1, (2, 2));
    let one = [
        (split(1, End::A, 1), Ok(())),
        (cross(3, 2), Ok(())),
        (merge(0, End::B), Ok(())),
    ];
    plays(
        &rt,
        alloc,
        &at_a,
        (&[0, 1], &[2, 3]),
        &one,
        &[&[0, 1, 2], &[3], &[], &[]],
    )?;
    let two = [
        (split(1, End::A, 2), Ok(())),
        (cross(3, 2), Ok(())),
        (merge(0, End::B), Err(Rule::Full)),
    ];
    plays(
        &rt,
        alloc,
        &at_a,
        (&[0, 1], &[2, 3]),
        &two,
        &[&[0, 1], &[], &[2, 3], &[]],
    )?;
    let whole = [
        (split(0, End::B, 0), Err(Rule::Index)),
        (split(0, End::B, 3), Err(Rule::Index)),
        (split(0, End::B, 2), Ok(())),
    ];
    plays(
        &rt,
        alloc,
        &at_a,
        (&[0, 1], &[2, 3]),
        &whole,
        &[&[], &[2, 3], &[0, 1], &[]],
    )
}

#[test]
fn broken_rules(rt: HostRuntime) -> Result<(), Fail> {
    let alloc = rt.alloc();
    let actions = [
        (split(0, End::B, 2), Err(Rule::Load)),
        (split(0, End::B, 3), Err(Rule::Index)),
        (split(0, End::A, 1), Err(Rule::NoJoin)),
        (split(2, End::A, 1), Err(Rule::NoPlace)),
        (split(0, End::B, 1), Ok(())),
        (split(0, End::B, 1), Err(Rule::Occupied)),
        (merge(1, End::A), Err(Rule::Empty)),
        (swap(0, 0), Err(Rule::Index)),
        (swap(1, 0), Ok(())),
        (goes(2, 3), Err(Rule::NoJoin)),
        (goes(0, 2), Err(Rule::NoPlace)),
        (op(0, 0), Err(Rule::Absent)),
        (op(0, 9), Err(Rule::NotOp)),
        (op(0, 1), Err(Rule::NotOp)),
        (merge(0, End::B), Ok(())),
        (op(0, 0), Ok(())),
    ];
    let sketch = drawn(4, End::A, 1, (1, 1));
    plays(
        &rt,
        alloc,
        &sketch,
        (&[0, 1], &[2, 3]),
        &actions,
        &[&[0, 1], &[3, 2], &[], &[]],
    )
}

#[test]
fn slots_in_a_row(rt: HostRuntime) -> Result<(), Fail> {
    let alloc = rt.alloc();
    let moves = [
        (split(0, End::B, 1), Ok(())),
        (goes(2, 3), Ok(())),
        (split(0, End::B, 1), Ok(())),
        (goes(2, 3), Err(Rule::Occupied)),
        (goes(4, 3), Err(Rule::Empty)),
        (goes(3, 4), Ok(())),
        (goes(2, 3), Ok(())),
    ];
    let row = drawn(4, End::A, 3, (2, 2));
    plays(
        &rt,
        alloc,
        &row,
        (&[0, 1], &[2, 3]),
        &moves,
        &[&[], &[2, 3], &[], &[0], &[1], &[]],
    )?;
    let load = [
        (split(0, End::B, 2), Ok(())),
        (cross(2, 3), Err(Rule::Load)),
    ];
    let narrow = drawn(4, End::A, 1, (2, 1));
    plays(
        &rt,
        alloc,
        &narrow,
        (&[0, 1], &[2, 3]),
        &load,
        &[&[], &[2, 3], &[0, 1], &[]],
    )
}

// How many qubits are in the lists.
fn placed_count(lists: &[Qubits]) -> usize
    requires { length (reading_order lists.now) < 2 ^ 32 }
    ensures { result ≡ length (reading_order lists.now) }
{
    let mut count = 0;
    for list in lists {
        count += list.items().len();
    }
    count
}

#[test]
fn lists_that_are_no_placement(rt: HostRuntime) -> Result<(), Fail> {
    let alloc = rt.alloc();
    let trap = trap_of(alloc, &drawn(3, End::A, 1, (1, 1)))?;
    let circuit = four_qubits(alloc)?;
    let repeated = |number| GivenFault::Repeated {
        qubit: Qubit(number),
    };
    let missing = |number| GivenFault::Missing {
        qubit: Qubit(number),
    };
    let full = GivenFault::Full { zone: PlaceId(0) };
    let rows: [((&[u32], &[u32]), GivenFault); 6] = [
        ((&[0, 1, 1], &[2, 3]), repeated(1)),
        ((&[0, 1], &[2, 3, 0]), repeated(0)),
        ((&[0, 1, 2, 0], &[3]), repeated(0)),
        ((&[0, 1, 2, 3], &[3]), full),
        ((&[0], &[3]), missing(1)),
        ((&[3, 2, 1], &[]), missing(0)),
    ];
    for (zones, fault) in &rows {
        let lists = lists_of(alloc, &trap, &circuit, &[zones.0, zones.1])?;
        match Placement::new(alloc, &trap, &circuit, lists) {
            Ok(_) => assert!(rt; false),
            Err(e) => assert!(rt; e == *fault),
        }
    }
    let placement = placed(alloc, &trap, &circuit, &[&[2, 0], &[3, 1]])?;
    assert!(rt; placement.ion_of(Qubit(3)) == Ion(2) && placement.ion_of(Qubit(0)) == Ion(1));
    assert!(rt; placed_count(placement.lists()) == 4);
    assert!(rt; placement.qubit_of(Ion(0)) == Qubit(2) && placement.qubit_of(Ion(2)) == Qubit(3));
    Ok(())
}

#[test]
fn footprints_and_conflicts(rt: HostRuntime) -> Result<(), Fail> {
    let alloc = rt.alloc();
    let trap = trap_of(alloc, &drawn(3, End::A, 1, (1, 1)))?;
    let circuit = four_qubits(alloc)?;
    let crossing = Footprint {
        first: PlaceId(2),
        second: Some(PlaceId(3)),
        junction: Some(JunctionId(0)),
    };
    assert!(rt; footprint(&trap, &cross(2, 3)) == crossing);
    assert!(rt; crossing.meets(&footprint(&trap, &split(0, End::B, 1))));
    assert!(rt; crossing.meets(&footprint(&trap, &cross(7, 8))));
    assert!(rt; !crossing.meets(&footprint(&trap, &swap(0, 0))));
    assert!(rt; conflicts(&trap, &circuit, &split(0, End::B, 1), &cross(3, 2)));
    assert!(rt; conflicts(&trap, &circuit, &cross(2, 7), &cross(8, 3)));
    assert!(rt; !conflicts(&trap, &circuit, &swap(0, 0), &cross(2, 3)));
    assert!(rt; !conflicts(&trap, &circuit, &op(0, 0), &op(1, 0)));
    Ok(())
}

#[test]
fn steps_in_order(rt: HostRuntime) -> Result<(), Fail> {
    let mut schedule = Schedule::new(rt.alloc());
    schedule.reserve(2)?;
    assert!(rt; schedule.steps().is_empty());
    schedule.push_step()?;
    schedule.push_step()?;
    schedule.push_action(swap(0, 0))?;
    schedule.push_action(op(0, 0))?;
    schedule.reserve(1)?;
    let steps = schedule.steps();
    assert!(rt; steps.len() == 2);
    assert!(rt; steps[0].actions().is_empty());
    assert!(rt; steps[1].actions() == [swap(0, 0), op(0, 0)].as_slice());
    Ok(())
}
