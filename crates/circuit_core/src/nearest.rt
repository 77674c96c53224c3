//! Which operations come right before each operation.

ghost use Rattle.std.specs.Prelude.{◌≡◌, ◌<◌, length, slice_get, Some, IfOk};
ghost use Rattle.circuit_core.specs.Nearest.{IsNearestTable};

use crate::circuit::Circuit;
use crate::last_ops::LastOps;
use qc_base::{Items, NoMemory, OpId};
use std::alloc::Global;
use std::marker::Model;

/// For each operation the ones right before it: each of them has to come before it, and what else has to come
/// before it has to come before one of them. Clauses see a list for each operation.
#[derive(Debug, Drop)]
pub struct Nearest {
    rows: Vec<Items<OpId>>,
}

impl Model for Nearest {
    ghost use Rattle.std.specs.Prelude.{List};
    ghost use Rattle.qc_base.specs.declared.ids.OpId.{OpId as AnOpId};

    ghost Value = { List (List AnOpId) };

    ghost view = { λ n. n.rows.items };
}

impl Nearest {
    /// The nearest operations before each operation of a circuit, by one pass.
    pub fn new(alloc: Global, circuit: &Circuit) -> Result<Nearest, NoMemory>
        ensures { IfOk result (λ nearest. IsNearestTable circuit.now nearest) }
    {
        let mut last = LastOps::new(alloc, circuit)?;
        let mut rows = Vec::new(alloc);
        for (number, op) in circuit.ops().iter().enumerate() {
            rows.push(Items::from_vec(last.right_before(alloc, circuit, op)?))?;
            last.note(circuit, op, OpId(number as u32));
        }
        Ok(Nearest { rows })
    }

    /// The nearest operations before an operation.
    pub fn of(&self, op: OpId) -> &[OpId]
        requires { op.0 < length self.now }
        ensures { slice_get self.now op.0 ≡ Some result.now }
    {
        self.rows[op.0 as usize].items()
    }
}
