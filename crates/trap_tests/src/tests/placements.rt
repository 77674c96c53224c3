//! Placements of two zones by each rule, and why there is none.

ghost use Rattle.std.specs.Prelude.{◌≡◌, length, IfOk};

use circuit_core::{Circuit, Qubits};
use placement::{PlaceFault, PlaceRule, place};
use qc_base::{Name, NoMemory, PlaceId, Qubit};
use samples::{ALL, cx, reset, zones_apart};
use std::alloc::Global;
use std::process::Abort;
use std::test::Fail;
use step_rules::{GivenFault, Placement};
use trap_model::{GivenLabels, Labels, Trap};

// Zones A and B of capacity 4.
fn two_zones(alloc: Global) -> Result<Trap, Fail> {
    zones_apart(alloc, &[(4, &ALL), (4, &ALL)])
}

fn circuit_of(alloc: Global, qubits: u32) -> Result<Circuit, Fail> {
    samples::circuit_of(alloc, qubits, 0, Vec::new(alloc))
}

// Four qubits: a reset of the first, and CX from the last to the second.
fn crossed(alloc: Global) -> Result<Circuit, Fail> {
    samples::circuit_of(alloc, 4, 0, Vec::from_array(alloc, [reset(0), cx(3, 1)])?)
}

fn reads(qubits: &Qubits, numbers: &[u32]) -> bool {
    let qubits = qubits.items();
    qubits
        .iter()
        .map(|qubit| qubit.0)
        .eq(numbers.iter().copied())
}

// Whether the zones have the qubits of these numbers.
fn has(placement: &Placement, first: &[u32], second: &[u32]) -> bool {
    match placement.lists() {
        [a, b] => reads(a, first) && reads(b, second),
        _ => false,
    }
}

// The labels q[D] for these digits.
fn labels(alloc: Global, digits: &[u8]) -> Result<Labels, NoMemory> {
    let mut names = Vec::new(alloc);
    for digit in digits {
        names.push(Name::from_bytes(alloc, &[b'q', b'[', *digit, b']'])?)?;
    }
    Ok(Labels::from_vec(names))
}

fn table(alloc: Global, first: &[u8], second: &[u8]) -> Result<GivenLabels, NoMemory>
    ensures { IfOk result (λ table. length table ≡ 2) }
{
    let first = labels(alloc, first)?;
    let second = labels(alloc, second)?;
    let lists = Vec::from_array(alloc, [first, second])?;
    Ok(GivenLabels::from_vec(lists))
}

// Why the labels of these digits give no placement of so many qubits.
fn given(
    rt: &impl Abort,
    alloc: Global,
    qubits: u32,
    zones: (&[u8], &[u8]),
) -> Result<Option<PlaceFault>, Fail> {
    let trap = two_zones(alloc)?;
    let circuit = circuit_of(alloc, qubits)?;
    let table = table(alloc, zones.0, zones.1)?;
    assert!(rt; trap.zones().len() == 2);
    Ok(place(alloc, &trap, &circuit, PlaceRule::Given, Some(&table)).err())
}

#[test]
fn four_qubits_across_two_zones(rt: HostRuntime) -> Result<(), Fail> {
    let alloc = rt.alloc();
    let trap = two_zones(alloc)?;
    let circuit = circuit_of(alloc, 4)?;
    let placement = place(alloc, &trap, &circuit, PlaceRule::Declared, None)?;
    assert!(rt; has(&placement, &[0, 1], &[2, 3]));
    Ok(())
}

#[test]
fn five_qubits_and_room_for_four(rt: HostRuntime) -> Result<(), Fail> {
    let alloc = rt.alloc();
    let trap = two_zones(alloc)?;
    let circuit = circuit_of(alloc, 5)?;
    let fault = place(alloc, &trap, &circuit, PlaceRule::FirstUse, None).err();
    assert!(rt; fault == Some(PlaceFault::TooManyQubits { qubits: 5, room: 4 }));
    Ok(())
}

#[test]
fn first_use_takes_the_control_first(rt: HostRuntime) -> Result<(), Fail> {
    let alloc = rt.alloc();
    let trap = two_zones(alloc)?;
    let circuit = crossed(alloc)?;
    let placement = place(alloc, &trap, &circuit, PlaceRule::FirstUse, None)?;
    assert!(rt; has(&placement, &[3, 1], &[0, 2]));
    Ok(())
}

#[test]
fn no_table(rt: HostRuntime) -> Result<(), Fail> {
    let alloc = rt.alloc();
    let trap = two_zones(alloc)?;
    let circuit = circuit_of(alloc, 2)?;
    let fault = place(alloc, &trap, &circuit, PlaceRule::Given, None).err();
    assert!(rt; fault == Some(PlaceFault::NoTable));
    Ok(())
}

#[test]
fn labels_of_a_table(rt: HostRuntime) -> Result<(), Fail> {
    let alloc = rt.alloc();
    let trap = two_zones(alloc)?;
    let circuit = circuit_of(alloc, 3)?;
    let table = table(alloc, b"2", b"01")?;
    assert!(rt; trap.zones().len() == 2);
    let placement = place(alloc, &trap, &circuit, PlaceRule::Given, Some(&table))?;
    assert!(rt; has(&placement, &[2], &[0, 1]));
    Ok(())
}

#[test]
fn unknown_label(rt: HostRuntime) -> Result<(), Fail> {
    let fault = given(&rt, rt.alloc(), 2, (b"00", b"1234"))?;
    let label = Name::from_bytes(rt.alloc(), b"q[2]")?;
    let zone = PlaceId(1);
    assert!(rt; fault == Some(PlaceFault::UnknownQubit { zone, label }));
    Ok(())
}

#[test]
fn labels_that_are_no_placement(rt: HostRuntime) -> Result<(), Fail> {
    let alloc = rt.alloc();
    let twice = GivenFault::Repeated { qubit: Qubit(0) };
    assert!(rt; given(&rt, alloc, 2, (b"0", b"10"))? == Some(PlaceFault::Given(twice)));
    let missing = GivenFault::Missing { qubit: Qubit(1) };
    assert!(rt; given(&rt, alloc, 3, (b"0", b"2"))? == Some(PlaceFault::Given(missing)));
    let full = GivenFault::Full { zone: PlaceId(0) };
    assert!(rt; given(&rt, alloc, 5, (b"01234", b""))? == Some(PlaceFault::Given(full)));
    Ok(())
}
