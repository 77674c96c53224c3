//! The first gate of a load.

use circuit_core::Op;
use load_setup::{GATES, Words, generate};
use qc_base::Qubit;
use std::test::Fail;

#[test]
fn the_first_word(rt: HostRuntime) {
    let mut words = Words::new(1);
    assert!(rt; words.next() == 908_834_774);
}

#[test]
fn the_first_gate(rt: HostRuntime) -> Result<(), Fail> {
    let (trap, circuit) = generate(rt.alloc(), 1)?;
    assert!(rt; trap.zones().len() == 6 && trap.segments().len() == 5);
    assert!(rt; circuit.qubits() == 60 && circuit.ops().len() == GATES);
    let Some(Op::Cx { control, .. }) = circuit.ops().first() else {
        panic!(rt; "no gate");
    };
    assert!(rt; *control == Qubit(14));
    Ok(())
}
