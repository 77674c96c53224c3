//! An operation under a condition.

use circuit_core::{Angle, Cond, Op};
use qc_base::{CregId, Qubit};

/// The gate U with the angles pi on a qubit, where the register holds the value.
pub fn turn_if(qubit: u32, value: u64) -> Op {
    Op::U {
        theta: Angle::Pi,
        phi: Angle::Pi,
        lambda: Angle::Pi,
        qubit: Qubit(qubit),
        cond: Some(Cond {
            creg: CregId(0),
            value,
        }),
    }
}
