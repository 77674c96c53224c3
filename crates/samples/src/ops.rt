//! Operations.

use circuit_core::{Angle, Op, Qubits};
use qc_base::{Bit, NoMemory, Qubit};
use std::alloc::Global;

/// CX on two qubits.
pub fn cx(control: u32, target: u32) -> Op {
    Op::Cx {
        control: Qubit(control),
        target: Qubit(target),
        cond: None,
    }
}

/// The gate U with the angles pi.
pub fn turn(qubit: u32) -> Op {
    Op::U {
        theta: Angle::Pi,
        phi: Angle::Pi,
        lambda: Angle::Pi,
        qubit: Qubit(qubit),
        cond: None,
    }
}

/// A measurement of a qubit into a bit.
pub fn measure(qubit: u32, bit: u32) -> Op {
    Op::Measure {
        qubit: Qubit(qubit),
        bit: Bit(bit),
        cond: None,
    }
}

/// A reset of a qubit.
pub fn reset(qubit: u32) -> Op {
    Op::Reset {
        qubit: Qubit(qubit),
        cond: None,
    }
}

/// A barrier on these qubits.
pub fn barrier(alloc: Global, numbers: &[u32]) -> Result<Op, NoMemory> {
    let mut qubits = Vec::new(alloc);
    for number in numbers {
        qubits.push(Qubit(*number))?;
    }
    Ok(Op::Barrier {
        qubits: Qubits::from_vec(qubits),
    })
}
