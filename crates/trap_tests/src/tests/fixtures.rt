//! Samples that are made.

use qc_base::{End, Qubit};
use samples::{
    barrier, circuit_of, cx, lists_of, measure, reset, segment, turn, zones_apart,
    zones_at_a_junction, zones_at_a_slot,
};
use std::test::Fail;
use trap_model::Need;

#[test]
fn traps_of_zones(rt: HostRuntime) -> Result<(), Fail> {
    let alloc = rt.alloc();
    let able = [Need::One, Need::Read];
    let zones: [(u32, &[Need]); 3] = [(4, &able), (3, &[]), (2, &able)];
    let trap = zones_apart(alloc, &zones)?;
    assert!(rt; trap.zones().len() == 3 && trap.places() == 3);
    let last = &trap.zones()[2];
    assert!(rt; last.name.bytes() == b"C".as_slice() && last.capacity == 2);
    assert!(rt; last.one && !last.two && last.read);
    assert!(rt; zones_at_a_slot(alloc, &zones)?.places() == 4);
    let segments = [segment(alloc, b"s", 2, 1)?, segment(alloc, b"t", 1, 3)?];
    let trap = zones_at_a_junction(alloc, &zones[..2], End::B, segments)?;
    assert!(rt; trap.places() == 5 && trap.junctions().len() == 1);
    Ok(())
}

#[test]
fn circuits_and_lists(rt: HostRuntime) -> Result<(), Fail> {
    let alloc = rt.alloc();
    let all = barrier(alloc, &[0, 2, 1])?;
    let ops = Vec::from_array(alloc, [turn(0), cx(0, 2), all, measure(1, 1), reset(2)])?;
    let circuit = circuit_of(alloc, 3, 2, ops)?;
    assert!(rt; circuit.qubits() == 3 && circuit.bits() == 2 && circuit.ops().len() == 5);
    let trap = zones_apart(alloc, &[(2, &[]), (2, &[])])?;
    let lists = lists_of(alloc, &trap, &circuit, &[&[2, 0], &[1]])?;
    assert!(rt; lists[0].items() == [Qubit(2), Qubit(0)].as_slice());
    Ok(())
}
