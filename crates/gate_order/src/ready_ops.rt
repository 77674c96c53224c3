//! The ready operations of a circuit.

ghost use Rattle.std.specs.Prelude.{◌≡◌, ◌<◌, ◌≤◌, ◌++◌, ◌∷◌, [], length, IfOk, IsOk};
ghost use Rattle.circuit_core.specs.Nearest.{IsNearestTable};
ghost use Rattle.gate_order.specs.Ready.{IsReady, AreReady};
ghost use Rattle.gate_order.specs.Keeping.{AreAfter, IsSettledAll, done_in};

use crate::after::{Numbers, after};
use crate::progress::Progress;
use circuit_core::{Circuit, Nearest};
use qc_base::{NoMemory, OpId};
use std::alloc::Global;
use std::marker::Model;

/// Which operations of a circuit are ready, after some of them are done. Clauses see the circuit and the list of the
/// operations that are done.
#[derive(Debug, Drop)]
pub struct Ready<'a> {
    circuit: &'a Circuit,
    nearest: Nearest,
    after: Vec<Numbers>,
    progress: Progress,
}

impl<'a> Model for Ready<'a> {
    ghost use Rattle.gate_order.specs.Ready.{ReadyValue};
    ghost use Rattle.gate_order.specs.Keeping.{IsSettledAll, done_in};
    ghost use Rattle.circuit_core.specs.contracts.angle.Angle as angle;
    ghost use Rattle.std.specs.Coded.{codes};

    ghost Value = { ReadyValue };

    ghost coded = { Prim.hlevel (codes, angle.the_row.coded) };

    ghost view = { λ r. record { circuit = r.circuit.now; done = done_in r.circuit.now r.progress.settled.items } };

    ghost invariant = { λ r. IsSettledAll r.circuit.now r.nearest r.after.items r.progress };
}

// The progress before an operation is done.
fn start(
    alloc: Global,
    circuit: &Circuit,
    nearest: &Nearest,
    after: &[Numbers],
) -> Result<Progress, NoMemory>
    requires table { IsNearestTable circuit.now nearest.now }
    requires after { AreAfter nearest.now (length nearest.now) after.now }
    ensures all { IfOk result (λ progress. IsSettledAll circuit.now nearest.now after.now progress) }
    ensures done { IfOk result (λ progress. done_in circuit.now progress.settled.items ≡ []) }
{
    let count = circuit.ops().len();
    let mut progress = Progress::new(alloc, count)?;
    for op in 0..count as u32 {
        progress.add(circuit, nearest, OpId(op))?;
    }
    progress.spread(circuit, nearest, after, 0);
    Ok(progress)
}

impl<'a> Ready<'a> {
    /// The operations that are ready before any is done, by one pass over the circuit.
    pub fn new(alloc: Global, circuit: &'a Circuit) -> Result<Ready<'a>, NoMemory>
        ensures { IfOk result (λ ready. ready ≡ record { circuit = circuit.now; done = [] }) }
    {
        let nearest = Nearest::new(alloc, circuit)?;
        let after = after(alloc, circuit, &nearest)?;
        let progress = start(alloc, circuit, &nearest, &after)?;
        Ok(Ready {
            circuit,
            nearest,
            after,
            progress,
        })
    }

    /// The ready operations in ascending order. It takes no memory.
    pub fn ready(&self) -> &[OpId]
        ensures { AreReady self.now result.now }
    {
        self.progress.ready.as_slice()
    }

    /// Notes that a ready operation is done. It takes no memory, and no longer than there are operations right after
    /// it and after the barriers that it was the last to wait for, and ready ones.
    pub fn done(&mut self, op: OpId)
        requires { IsReady self.old.circuit self.old.done op.0 }
        ensures { self.new ≡ record { circuit = self.old.circuit; done = self.old.done ++ op ∷ [] } }
    {
        self.progress
            .finish(self.circuit, &self.nearest, &self.after, op);
    }
}
